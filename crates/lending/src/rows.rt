// The row that a call names, and a step on it.
ghost use Rattle.std.specs.Prelude.{◌≡◌, ◌<◌, length, OnOk};
ghost use Rattle.book.specs.declared.Row.{Row};
ghost use Rattle.book.specs.declared.Seen.{Seen};
ghost use Rattle.book.specs.declared.Stepped.{Stepped};
ghost use Rattle.calls.specs.declared.row.Named.{Named};
ghost use Rattle.lending.specs.Steps.{as_found, found_at, Keeps, stepped_at};

use crate::look::look_on;
use book::{Refusal, Refused, Reply, Row, Stepped};
use booking::look::start;
use calls::row::Named;

#[tactic(auto, unfolding(crate::specs::Steps::found_at))]
pub(crate) fn find(rows: &[Row], session: usize) -> Result<Named, Refused>
    ensures value { as_found (λ n. (n.row, n.seen)) result ≡ found_at rows.now session }
    ensures inside { OnOk result (session < length rows.now) }
{
    Ok(Named {
        row: *rows.get(session).ok_or(Refusal::Argument)?,
        seen: look_on(rows, start()),
    })
}

// The row that the step gives is stored.
#[tactic(auto, unfolding(crate::specs::Steps::found_at))]
pub(crate) fn step<F: FnOnce(Named) -> Stepped>(rows: &mut [Row], session: usize, step: F) -> Reply
    requires { F.IsAlwaysCallable step }
    ensures { (call : Row → Seen → Stepped) → ((n : Named) (s : Stepped) → F.post step n s → s ≡ call n.row n.seen)
        → Keeps rows.old session (stepped_at call rows.old session) result rows.new }
{
    match find(rows, session) {
        Ok(named) => {
            let stepped = step(named);
            rows[session] = stepped.row;
            stepped.reply
        }
        Err(refused) => refused.into(),
    }
}
