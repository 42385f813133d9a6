// The book as the host lends it, a slice of session rows, and the six calls on it: each looks at all rows, and makes its step on the row that it names.
#![tactic(auto)]

mod look;
mod rows;

ghost use Rattle.std.specs.Prelude.{length};
ghost use Rattle.flow.specs.declared.Settings.{Settings};
ghost use Rattle.book.specs.Model.{offers, answers, cancels, closes, asks, states};
ghost use Rattle.lent.specs.Lent.{gave, gave_into, Promised};

use book::{Reply, Row};
use flow::{Asked, Settings};

pub fn offer(rows: &mut [Row], session: usize, origin: u64, text: &[u8]) -> Reply
    ensures { (settings : Settings) → Promised settings rows.old (offers session origin text.now) (gave result rows.new) }
{
    rows::step(rows, session, |named| named.offer(origin, text))
}

pub fn answer(settings: Settings, rows: &mut [Row], session: usize, text: &[u8]) -> Reply
    ensures { Promised settings rows.old (answers session text.now) (gave result rows.new) }
{
    rows::step(rows, session, |named| named.answer(settings, text))
}

pub fn cancel(rows: &mut [Row], session: usize) -> Reply
    ensures { (settings : Settings) → Promised settings rows.old (cancels session) (gave result rows.new) }
{
    rows::step(rows, session, |named| named.cancel())
}

pub fn close(rows: &mut [Row], session: usize) -> Reply
    ensures { (settings : Settings) → Promised settings rows.old (closes session) (gave result rows.new) }
{
    rows::step(rows, session, |named| named.close())
}

pub fn bearer(rows: &[Row], session: usize, asked: Asked) -> Reply
    ensures { (settings : Settings) → Promised settings rows.now (asks session asked) (gave result rows.now) }
{
    match rows::find(rows, session) {
        Ok(named) => named.bearer(asked),
        Err(refused) => refused.into(),
    }
}

pub fn statement(rows: &[Row], session: usize, out: &mut [u8]) -> Reply
    ensures { (settings : Settings) → Promised settings rows.now (states session (length out.old))
        (gave_into result rows.now out.old out.new) }
{
    match rows::find(rows, session) {
        Ok(named) => named.statement(out),
        Err(refused) => refused.into(),
    }
}
