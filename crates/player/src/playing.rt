// The calls of a file, one after the other, over a book of sixteen fresh rows.
ghost use Rattle.std.specs.Prelude.{◌≡◌};
ghost use Rattle.put.specs.Put.{Puts, Takes};
ghost use Rattle.book.specs.Demand3.{fresh_book};
ghost use Rattle.callfile.specs.Ask.{asks_from};
ghost use Rattle.evening.specs.Playing.{answered, output_of};
ghost use Rattle.player.specs.Steps.{calls_of, room_for};

use crate::{call, totals};
use book::{Change, Refusal, Refused, Reply};
use callfile::CallFile;
use calls::row::{self, Named};
use printing::answer;
use put::Buffer;

// The answers to the calls, and what is booked in the end.
fn put_answers(out: &mut Buffer, s: &[u8], file: CallFile)
    ensures { Takes out.old (answered file.settings (fresh_book 16) 1 s.now file.texts.spans
        (asks_from file.calls s.now file.texts.count file.at.at)) out.new }
{
    let mut rows = [row::fresh(); 16];
    let mut booked = Change { up: 0, down: 0 };
    let mut at = file.at;
    for i in 0..file.calls {
        let Some((ask, next)) = callreader::call::ask_at(s, at, file.texts.count) else {
            break;
        };
        let mut reply = Reply::from(Refused::from(Refusal::Argument));
        let session = ask.session() as usize;
        if session < rows.len() {
            let text = call::spanned(s, file.texts.named_by(ask));
            let named = Named {
                row: rows[session],
                seen: totals::seen(booked),
            };
            let stepped = call::step(file.settings, named, ask, text);
            rows[session] = stepped.row;
            reply = stepped.reply;
            booked = totals::add(booked, stepped.reply.change);
        }
        answer::put_answer(out, i + 1, ask.letter(), reply);
        at = next;
    }
    answer::put_booked(out, booked.up, booked.down);
}

// How many calls the file counts.
pub fn calls_of(file: Option<CallFile>) -> u64
    ensures { result ≡ calls_of file }
{
    match file {
        Some(file) => file.calls,
        None => 0,
    }
}

// Room for any evening of so many calls.
pub fn room(calls: u64) -> usize
    ensures { result ≡ room_for calls }
{
    if 4294967295 < calls {
        return usize::MAX;
    }
    (128 + 128 * calls) as usize
}

fn put_output(out: &mut Buffer, s: &[u8], file: Option<CallFile>)
    ensures { Takes out.old (output_of s.now file) out.new }
{
    match file {
        Some(file) => {
            answer::put_calls(out, file.calls);
            put_answers(out, s, file);
        }
        None => out.word(b"bad file\n"),
    }
}

pub fn put_all(s: &[u8], file: Option<CallFile>, out: &mut [u8]) -> usize
    ensures { Puts out.old 0 (output_of s.now file) result out.new }
{
    let mut buffer = Buffer { out, at: 0 };
    put_output(&mut buffer, s, file);
    buffer.at
}
