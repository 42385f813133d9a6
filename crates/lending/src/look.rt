// The look at all lent rows.
ghost use Rattle.std.specs.Prelude.{◌≡◌};
ghost use Rattle.lending.specs.Looks.{seen_all};

use book::{Row, Seen};
use booking::look;

// From what was seen before, with all rows.
pub fn look_on(rows: &[Row], seen: Seen) -> Seen
    ensures { result ≡ seen_all rows.now seen }
{
    rows.iter().fold(seen, look::with_row)
}
