// What the exchanges start from and what they leave, by the mode of each.
ghost use Rattle.std.specs.Prelude.{◌≡◌};
ghost use Rattle.flows.specs.States.{no_states, start_of, after_of};

use crate::head::Mode;
use flow::Held;
use policy::exchange;

// What the last exchange left, and the saved state.
#[derive(Clone, Copy)]
pub struct States {
    pub last: Held,
    pub saved: Held,
}

impl States {
    pub fn new() -> States
        ensures { result ≡ no_states }
    {
        let zeros = exchange::fresh();
        States {
            last: zeros,
            saved: zeros,
        }
    }

    // What an exchange of this mode starts from.
    pub fn start(self, mode: Mode) -> Held
        ensures { result ≡ start_of self mode }
    {
        match mode {
            Mode::GoOn => self.last,
            Mode::FromSaved => self.saved,
            Mode::Fresh | Mode::FreshAndSave => exchange::fresh(),
        }
    }

    // After an exchange of this mode left `held`.
    pub fn after(self, mode: Mode, held: Held) -> States
        ensures { result ≡ after_of self mode held }
    {
        let saved = match mode {
            Mode::FreshAndSave => held,
            _ => self.saved,
        };
        States { last: held, saved }
    }
}
