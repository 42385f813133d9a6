// What a session books.
ghost use Rattle.std.specs.Prelude.{◌≡◌};
ghost use Rattle.flow.specs.Range.{rates_in, held_rates};
ghost use Rattle.book.specs.Booking.{no_rates};
ghost use Rattle.booking.specs.Sums.{component_rates, with_component, sums_of};

use flow::{Component, Held, Rates, Way};
use sdp::Bps;

const MOST_RTCP: u64 = 8_589_934_590;

pub fn no_rates() -> Rates
    ensures { result ≡ no_rates }
{
    Rates {
        up: Bps(0),
        down: Bps(0),
    }
}

// With the component's media and RTCP rates.
pub fn with(sum: Rates, c: &Component) -> Rates
    ensures { result ≡ with_component sum c.now }
{
    let up = u64::from(c.up.media).wrapping_add(c.up.rtcp.0);
    let down = u64::from(c.down.media).wrapping_add(c.down.rtcp.0);
    Rates {
        up: Bps(sum.up.0.wrapping_add(up)),
        down: Bps(sum.down.0.wrapping_add(down)),
    }
}

// All that a session books; where its rates are in range, no sum comes near 2^64.
#[tactic(auto, using(crate::proofs::Adding::sums_start, crate::proofs::Adding::sums_next))]
pub fn rates_of(held: &Held) -> Rates
    ensures { result ≡ sums_of held.now }
{
    let mut sum = no_rates();
    for c in &held.components {
        sum = with(sum, c);
    }
    sum
}

// A media rate is in range by its width.
fn rates_in(w: Way) -> bool
    ensures { result ≡ rates_in w }
{
    w.rtcp.0 <= MOST_RTCP
}

#[tactic(auto, unfolding(crate::specs::Sums::component_rates))]
fn component_rates(c: &Component) -> bool
    ensures { result ≡ component_rates c.now }
{
    rates_in(c.up) & rates_in(c.down)
}

// Whether all rates that a session holds are in range, so that their sums fit.
pub fn held_rates(held: &Held) -> bool
    ensures { result ≡ held_rates held.now }
{
    held.components.iter().all(component_rates)
}
