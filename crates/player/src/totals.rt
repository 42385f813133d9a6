// What is booked up and down: the sum of all changes so far.
ghost use Rattle.std.specs.Prelude.{◌≡◌, nat_abs, ◌+ℤ◌};
ghost use Rattle.std.specs.Int.{w64};
ghost use Rattle.std.proofs.Common.{SFits};
ghost use Rattle.player.specs.Steps.{sixteen, added_to};

use book::{Change, Seen};
use flow::Rates;
use sdp::Bps;

// A look at the book would see these totals.
pub fn seen(totals: Change) -> Seen
    ensures { result ≡ sixteen (nat_abs totals.up) (nat_abs totals.down) }
{
    Seen {
        rows: 16,
        sound: 1,
        booked: Rates {
            up: Bps(totals.up.unsigned_abs()),
            down: Bps(totals.down.unsigned_abs()),
        },
    }
}

// With the change that a call reports.
pub(crate) fn add(totals: Change, change: Change) -> Change
    requires { SFits w64 (totals.up +ℤ change.up) × SFits w64 (totals.down +ℤ change.down) }
    ensures { result ≡ added_to totals change }
{
    Change {
        up: totals.up + change.up,
        down: totals.down + change.down,
    }
}
