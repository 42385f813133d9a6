// The pool (16).
ghost use Rattle.std.specs.Prelude.{◌≡◌, ◌+◌, ◌-◌, nat_lt};
ghost use Rattle.book.specs.Booking.{above};

use flow::{Limit, Rates};

// Whether the total, less the old booking and with the new one, is above the pool. No sum is made that could be too large.
fn passes(pool: u64, total: u64, old: u64, new: u64) -> bool
    ensures { result ≡ nat_lt pool (total - old + new) }
{
    let rest = total.saturating_sub(old);
    pool < rest || pool - rest < new
}

#[tactic(auto, unfolding(book::specs::Booking::above))]
pub fn is_above(pool: Limit, total: Rates, old: Rates, new: Rates) -> bool
    ensures { result ≡ above pool total old new }
{
    let up = passes(u64::from(pool.up), total.up.0, old.up.0, new.up.0);
    let down = passes(u64::from(pool.down), total.down.0, old.down.0, new.down.0);
    up | down
}
