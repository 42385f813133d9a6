// The library for C: each function is one of the crates below it, under the name that C calls it by.
#![tactic(auto)]

ghost use Rattle.std.specs.Prelude.{◌≡◌, length};
ghost use Rattle.sdp.specs.Text.{read_text};
ghost use Rattle.flow.specs.Before.{before_of};
ghost use Rattle.flow.specs.Derive.{derived};
ghost use Rattle.flow.specs.Described.{media_to, rtcp_to};
ghost use Rattle.flow.specs.Fit.{fit_of};
ghost use Rattle.flow.specs.Gates.{gates_of};
ghost use Rattle.flow.specs.Bearer.{authorised};
ghost use Rattle.flow.specs.Deciding.{decision};
ghost use Rattle.book.specs.Model.{offers, answers, cancels, closes, asks, states};
ghost use Rattle.lent.specs.Lent.{gave, gave_into, Promised};
ghost use Rattle.evening.specs.Playing.{output, output_into};
ghost use Rattle.frumxadda.specs.Packed.{packed};

use book::{Reply, Row};
use flow::{
    Asked, Authorised, Before, Component, Decision, Descriptions, Destinations, Fit, Gates, Held,
    Settings,
};
use policy::{before, exchange};
use rules::{bearing, fitting, gating, sending};
use sdp::Text;

// Refusal + 256 * place + 2^32 * count.
#[unsafe(no_mangle)]
pub extern "C" fn frumxadda_text(text: &[u8]) -> u64
    ensures { result ≡ packed (read_text text.now) }
{
    let t = frumxadda_read(text);
    (t.refusal as u64) + 256 * (t.place as u64) + 4294967296 * (t.count as u64)
}

#[unsafe(no_mangle)]
pub extern "C" fn frumxadda_read(text: &[u8]) -> Text
    ensures { result ≡ read_text text.now }
{
    reader::read(text)
}

#[unsafe(no_mangle)]
pub extern "C" fn frumxadda_before(held: Held) -> Before
    ensures { result ≡ before_of held }
{
    before::before_of(&held)
}

#[unsafe(no_mangle)]
pub extern "C" fn frumxadda_derive(
    settings: Settings,
    origin: u64,
    before: Before,
    offer: Descriptions,
    answer: Descriptions,
) -> Held
    ensures { result ≡ derived settings origin before offer answer }
{
    exchange::derive(&settings, origin, &before, &offer, &answer)
}

#[unsafe(no_mangle)]
pub extern "C" fn frumxadda_fit(offer: Descriptions, answer: Descriptions) -> Fit
    ensures { result ≡ fit_of offer answer }
{
    fitting::fit(&offer, &answer)
}

#[unsafe(no_mangle)]
pub extern "C" fn frumxadda_media_destinations(component: Component) -> Destinations
    ensures { result ≡ media_to component }
{
    sending::media_destinations(&component)
}

#[unsafe(no_mangle)]
pub extern "C" fn frumxadda_rtcp_destinations(component: Component) -> Destinations
    ensures { result ≡ rtcp_to component }
{
    sending::rtcp_destinations(&component)
}

#[unsafe(no_mangle)]
pub extern "C" fn frumxadda_gates(component: Component) -> Gates
    ensures { result ≡ gates_of component }
{
    gating::gates(&component)
}

#[unsafe(no_mangle)]
pub extern "C" fn frumxadda_authorise(held: Held, asked: Asked) -> Authorised
    ensures { result ≡ authorised held asked }
{
    bearing::authorise(&held, asked)
}

#[unsafe(no_mangle)]
pub extern "C" fn frumxadda_deciding_line(offer: &[u8], answer: &[u8], component: u64) -> Decision
    ensures { result ≡ decision offer.now answer.now component }
{
    deciding::decide(offer, answer, component)
}

// The calls on a book that the host lends, a slice of 1 to 16 session rows. Every refusal leaves them as they were.
#[unsafe(no_mangle)]
pub extern "C" fn frumxadda_offer(
    rows: &mut [Row],
    session: usize,
    origin: u64,
    text: &[u8],
) -> Reply
    ensures { (settings : Settings) → Promised settings rows.old (offers session origin text.now) (gave result rows.new) }
{
    lending::offer(rows, session, origin, text)
}

#[unsafe(no_mangle)]
pub extern "C" fn frumxadda_answer(
    settings: Settings,
    rows: &mut [Row],
    session: usize,
    text: &[u8],
) -> Reply
    ensures { Promised settings rows.old (answers session text.now) (gave result rows.new) }
{
    lending::answer(settings, rows, session, text)
}

#[unsafe(no_mangle)]
pub extern "C" fn frumxadda_cancel(rows: &mut [Row], session: usize) -> Reply
    ensures { (settings : Settings) → Promised settings rows.old (cancels session) (gave result rows.new) }
{
    lending::cancel(rows, session)
}

#[unsafe(no_mangle)]
pub extern "C" fn frumxadda_close(rows: &mut [Row], session: usize) -> Reply
    ensures { (settings : Settings) → Promised settings rows.old (closes session) (gave result rows.new) }
{
    lending::close(rows, session)
}

#[unsafe(no_mangle)]
pub extern "C" fn frumxadda_bearer(rows: &[Row], session: usize, asked: Asked) -> Reply
    ensures { (settings : Settings) → Promised settings rows.now (asks session asked) (gave result rows.now) }
{
    lending::bearer(rows, session, asked)
}

#[unsafe(no_mangle)]
pub extern "C" fn frumxadda_statement(rows: &[Row], session: usize, out: &mut [u8]) -> Reply
    ensures { (settings : Settings) → Promised settings rows.now (states session (length out.old))
        (gave_into result rows.now out.old out.new) }
{
    lending::statement(rows, session, out)
}

// An evening of calls; the length of its output is returned, and no byte changes where it does not fit.
#[unsafe(no_mangle)]
pub extern "C" fn frumxadda_play(file: &[u8], out: &mut [u8]) -> usize
    ensures value { result ≡ length (output file.now) }
    ensures out_after { out.new ≡ output_into file.now out.old }
{
    player::play(file, out)
}
