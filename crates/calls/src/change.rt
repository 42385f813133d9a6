// New booking minus old.
ghost use Rattle.std.specs.Prelude.{◌≡◌};
ghost use Rattle.book.specs.Calls.{changed_by};
ghost use Rattle.calls.specs.Given.{IsSmall};

use book::{Change, Reply};
use flow::Rates;

// The answer that reports it.
pub(crate) fn reply(new: Rates, old: Rates) -> Reply
    ensures { IsSmall new → IsSmall old → result ≡ changed_by new old }
{
    Reply {
        change: Change {
            up: new.up.0.wrapping_sub(old.up.0).cast_signed(),
            down: new.down.0.wrapping_sub(old.down.0).cast_signed(),
        },
        ..Reply::ACCEPTED
    }
}
