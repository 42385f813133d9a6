// What a look gathers of one row, slot by slot.
ghost use Rattle.std.specs.Prelude.{◌≡◌, if◌then◌else◌};
ghost use Rattle.booking.specs.Slots.{no_tally, with_used, with_unused, held_to, offer_to};

use crate::sums;
use book::Row;
use flow::{Component, Rates};
use ranging::Slot;

// Of the components so far: whether all slots are good, and what the used ones book.
#[derive(Clone, Copy)]
pub struct Tally {
    pub good: bool,
    pub booked: Rates,
}

// Before the first slot.
fn none() -> Tally
    ensures { result ≡ no_tally }
{
    Tally {
        good: true,
        booked: sums::no_rates(),
    }
}

fn with_slot(t: Tally, used: bool, c: &Component) -> Tally
    ensures { result ≡ (if used then with_used t c.now else with_unused t c.now) }
{
    Tally {
        good: t.good & c.is_good(used),
        booked: if used {
            sums::with(t.booked, c)
        } else {
            t.booked
        },
    }
}

// Of all components that the row holds.
#[tactic(auto, using(crate::proofs::Gathered::held_start, crate::proofs::Gathered::held_next))]
pub fn held(row: &Row) -> Tally
    ensures { result ≡ held_to row.now 8 }
{
    let mut t = none();
    for (j, c) in row.held.components.iter().enumerate() {
        t = with_slot(t, j < row.held.count as usize, c);
    }
    t
}

// Whether all descriptions of the row's open offer are good.
#[tactic(auto, using(crate::proofs::Gathered::offer_start, crate::proofs::Gathered::offer_next))]
pub fn offer(row: &Row) -> bool
    ensures { result ≡ offer_to row.now 8 }
{
    let mut good = true;
    for (j, m) in row.offer.said.media.iter().enumerate() {
        good &= m.is_good(j < row.offer.said.count as usize);
    }
    good
}
