// The ranges of a component and of a media description, for 19, tested by words: several small fields at once.
#![tactic(auto)]

pub mod class;
mod component;
mod media;
mod words;

ghost use Rattle.std.specs.Prelude.{◌≡◌, Bool, if◌then◌else◌};

// One of the eight parts of a list that has a count: a used one has to be in range, an unused one none.
pub trait Slot {
    ghost range: { Self → Bool };

    ghost none: { Self → Bool };

    fn is_in_range(&self) -> bool
        ensures { result ≡ range self.now };

    fn is_none(&self) -> bool
        ensures { result ≡ none self.now };

    fn is_good(&self, used: bool) -> bool
        ensures { result ≡ (if used then range self.now else none self.now) }
    {
        if used {
            self.is_in_range()
        } else {
            self.is_none()
        }
    }
}
