// One exchange, from its two texts to the states after it.
ghost use Rattle.std.specs.Prelude.{◌≡◌, ◌≢◌, IfOk, MatchResult};
ghost use Rattle.sdp.specs.Text.{read_text};
ghost use Rattle.flow.specs.Fit.{said};
ghost use Rattle.flows.specs.States.{after_of, states_after};

use crate::answer;
use crate::parts::Exchange;
use crate::states::States;
use flow::{Descriptions, Held, Limit, Settings};
use policy::{before, exchange};
use rules::fitting;
use std::io::{self, Write};

// Why an exchange is refused, where, and which text failed: 1 the offer, 2 the answer, 0 neither.
#[derive(Clone, Copy)]
pub struct Refused {
    pub refusal: u64,
    pub place: u64,
    pub failed: u8,
}

// The pool is not used.
const SETTINGS: Settings = Settings {
    media: Limit {
        up: 100000,
        down: 90000,
    },
    rtcp: Limit {
        up: 5000,
        down: 4000,
    },
    pool: Limit { up: 0, down: 0 },
};

// What a text describes. It is the one of number `failed`, where it is refused.
fn described(text: &[u8], failed: u8) -> Result<Descriptions, Refused>
    ensures { MatchResult result (λ d. ((read_text text.now).refusal ≡ 0) × (d ≡ said (read_text text.now)))
        (λ _. (read_text text.now).refusal ≢ 0) }
{
    let t = reader::read(text);
    if t.refusal != 0 {
        return Err(Refused {
            refusal: t.refusal.into(),
            place: t.place.into(),
            failed,
        });
    }
    Ok(fitting::said_in(&t))
}

// What the exchange leaves.
#[tactic(auto, unfolding(crate::specs::States::states_after, crate::specs::States::states_with))]
fn derived(e: &Exchange<'_>, states: States) -> Result<Held, Refused>
    ensures { MatchResult result
        (λ held. after_of states e.now.head.mode held ≡ states_after states e.now.head e.now.offer.now e.now.answer.now)
        (λ _. states ≡ states_after states e.now.head e.now.offer.now e.now.answer.now) }
{
    let offered = described(e.offer, 1)?;
    let answered = described(e.answer, 2)?;
    let fit = fitting::fit(&offered, &answered);
    if fit.refusal != 0 {
        return Err(Refused {
            refusal: fit.refusal,
            place: fit.place,
            failed: 0,
        });
    }
    let was = before::before_of(&states.start(e.head.mode));
    Ok(exchange::derive(&SETTINGS, e.head.origin, &was, &offered, &answered))
}

// Answers the exchange of number i. A refused one leaves the states as they were.
pub fn play<W: Write>(to: &mut W, i: u64, states: States, e: &Exchange<'_>) -> io::Result<States>
    ensures { IfOk result (λ after. after ≡ states_after states e.now.head e.now.offer.now e.now.answer.now) }
{
    match derived(e, states) {
        Ok(held) => {
            answer::completed(to, i, &held, e)?;
            Ok(states.after(e.head.mode, held))
        }
        Err(refused) => {
            answer::refused(to, i, refused)?;
            Ok(states)
        }
    }
}
