// Where an exchange stands: a line with its head, then its offer and its answer, each after its length line.
ghost use Rattle.std.specs.Prelude.{◌≡◌};
ghost use Rattle.flows.specs.Parts.{first_of, lent};

use crate::head::Head;
use cursor::Cursor;

// An exchange, and what stands after it.
#[derive(Clone, Copy)]
pub struct Exchange<'a> {
    pub head: Head,
    pub offer: &'a [u8],
    pub answer: &'a [u8],
    pub rest: &'a [u8],
}

// The first exchange of `rest`: a head below 8, an offer and an answer.
#[tactic(auto, using(frame::proofs::Lines::text_within), unfolding(crate::specs::Parts::first_of))]
pub fn first(rest: &[u8]) -> Option<Exchange<'_>>
    ensures { lent result ≡ first_of rest.now }
{
    let (n, start) = frame::number_line(rest, Cursor { at: 0 })?;
    let head = Head::try_from(n).ok()?;
    let offer = frame::text(rest, start)?;
    let answer = frame::text(rest, Cursor { at: offer.end })?;
    Some(Exchange {
        head,
        offer: &rest[offer.from..offer.end],
        answer: &rest[answer.from..answer.end],
        rest: &rest[answer.end..],
    })
}
