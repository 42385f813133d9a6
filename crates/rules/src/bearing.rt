// What a bearer over some components is authorised to ask for.
ghost use Rattle.std.specs.Prelude.{◌≡◌, ◌+◌};
ghost use Rattle.std.specs.Bool.{then_some};
ghost use Rattle.flow.specs.Bearer.{at_most, smaller, authorised};
ghost use Rattle.rules.specs.Steps.{adds, within, summed, names_well};

use flow::{Asked, Authorised, Component, Held};

// In bit/s, each direction.
const CEILING: u64 = 256_000_000;

// Over the named components so far: the rates, each at most the ceiling, the smallest class other than 0, whether one is live.
#[derive(Clone, Copy, Default)]
pub struct Sum {
    pub up: u64,
    pub down: u64,
    pub class: u64,
    pub live: bool,
}

// No sum of figures of 64 bits is too large, since it stops at the ceiling.
#[tactic(auto, using(crate::proofs::Answers::capped_is))]
fn capped(sum: u64, rate: u64) -> u64
    ensures { result ≡ at_most (sum + rate) }
{
    sum.saturating_add(rate).min(CEILING)
}

fn smaller_of(a: u64, b: u64) -> u64
    ensures { result ≡ smaller a b }
{
    match (a, b) {
        (0, class) | (class, 0) => class,
        _ => a.min(b),
    }
}

impl Sum {
    fn with(self, c: &Component) -> Sum
        ensures { result ≡ adds self c.now }
    {
        Sum {
            up: capped(capped(self.up, u64::from(c.up.media)), c.up.rtcp.0),
            down: capped(capped(self.down, u64::from(c.down.media)), c.down.rtcp.0),
            class: smaller_of(self.class, u64::from(c.class)),
            live: self.live | c.is_live(),
        }
    }

    // Whether what is asked lies within it.
    fn covers(self, asked: Asked) -> bool
        ensures { result ≡ within self asked }
    {
        self.live & (self.class <= asked.class) & (asked.up <= self.up) & (asked.down <= self.down)
    }

    fn answer(self, refusal: u64) -> Authorised
        ensures { result ≡ record { refusal = refusal; class = self.class; up = self.up; down = self.down } }
    {
        Authorised {
            refusal,
            class: self.class,
            up: self.up,
            down: self.down,
        }
    }
}

// Over the set, unless it is empty or names one past the count. It is halved once for each component, so what is left of it names those.
fn sum_over(held: &Held, set: u64) -> Option<Sum>
    ensures { result ≡ then_some (names_well held.now set) (summed held.now set) }
{
    let mut sum = Sum::default();
    let mut rest = set;
    for c in held.used() {
        if rest % 2 == 1 {
            sum = sum.with(c);
        }
        rest /= 2;
    }
    ((set != 0) & (rest == 0)).then_some(sum)
}

pub fn authorise(held: &Held, asked: Asked) -> Authorised
    ensures { result ≡ authorised held.now asked }
{
    match sum_over(held, asked.set) {
        None => Sum::default().answer(18),
        Some(sum) if sum.covers(asked) => sum.answer(0),
        Some(sum) => sum.answer(17),
    }
}
