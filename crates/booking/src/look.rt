// A look at all rows, one after the other: its start, and what it has seen with one row more.
ghost use Rattle.std.specs.Prelude.{◌≡◌};
ghost use Rattle.book.specs.Look.{nothing_seen, added, looked};
ghost use Rattle.booking.specs.Slots.{held_head, offer_head};

use crate::{slots, sums};
use book::{Offer, Row, Seen};
use flow::{Held, Rates};
use ranging::class;
use sdp::Bps;

// Before the first row.
pub fn start() -> Seen
    ensures { result ≡ nothing_seen }
{
    Seen {
        rows: 0,
        sound: 1,
        booked: sums::no_rates(),
    }
}

// Sixteen rows in range come nowhere near 2^64.
#[tactic(auto, unfolding(book::specs::Look::wrapped))]
fn add(a: Rates, b: Rates) -> Rates
    ensures { result ≡ added a b }
{
    Rates {
        up: Bps(a.up.0.wrapping_add(b.up.0)),
        down: Bps(a.down.0.wrapping_add(b.down.0)),
    }
}

// The fields of what a session holds, beside its components.
fn held_head(held: &Held) -> bool
    ensures { result ≡ held_head held.now }
{
    let used = (held.completed == 1) | ((held.kept == 0) & (held.count == 0));
    (held.completed <= 1) & (class::is_class(held.kept) & ((held.count <= 8) & used))
}

// The fields of an open offer, beside its descriptions.
fn offer_head(offer: &Offer) -> bool
    ensures { result ≡ offer_head offer.now }
{
    let count = offer.said.count;
    let used = (offer.present == 1) | ((offer.origin == 0) & (count == 0));
    (offer.present <= 1) & ((offer.origin <= 1) & ((count <= 8) & used))
}

// With one row more.
pub fn with_row(seen: Seen, row: &Row) -> Seen
    ensures { result ≡ looked seen row.now }
{
    let held = slots::held(row);
    let offer = slots::offer(row);
    let rows = seen.rows.min(16) + 1;
    let heads = held_head(&row.held) & offer_head(&row.offer);
    if !((held.good & offer) & heads) {
        return Seen {
            rows,
            sound: 0,
            ..seen
        };
    }
    Seen {
        rows,
        booked: add(seen.booked, held.booked),
        ..seen
    }
}
