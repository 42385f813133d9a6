// Where the texts of a file stand.
ghost use Rattle.std.specs.Prelude.{◌≡◌};
ghost use Rattle.callfile.specs.Ask.{span_of};
ghost use Rattle.callfile.specs.Sections.{no_texts};

use crate::Ask;
use frame::Span;

const NOWHERE: Span = Span { from: 0, end: 0 };

// At most 64 texts; the places past the last one are all zeros.
#[derive(Clone, Copy)]
pub struct Texts {
    pub count: u64,
    pub spans: [Span; 64],
}

impl Texts {
    pub fn none() -> Texts
        ensures { result ≡ no_texts }
    {
        Texts {
            count: 0,
            spans: [NOWHERE; 64],
        }
    }

    // The text that a call names; all zeros where there is no such text.
    #[tactic(auto, unfolding(crate::specs::Ask::span_of))]
    pub fn named_by(&self, ask: Ask) -> Span
        ensures { result ≡ span_of self.now.spans ask }
    {
        let Some(number) = ask.text() else {
            return NOWHERE;
        };
        self.spans.get(number as usize).copied().unwrap_or(NOWHERE)
    }
}
