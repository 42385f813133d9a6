// The lines of the output.
ghost use Rattle.std.specs.Prelude.{[], ◌∷◌, ◌++◌};
ghost use Rattle.cursor.specs.Bytes.{bytes};
ghost use Rattle.put.specs.Put.{Takes};
ghost use Rattle.put.specs.Number.{signed};
ghost use Rattle.evening.specs.Playing.{ended, tail_of, answer_line, calls_line};

use book::Reply;
use put::Buffer;

// The changes of an answer or a close, what is said to a bearer, or nothing; and the end of the line.
fn put_tail(out: &mut Buffer, letter: u8, reply: Reply)
    ensures { Takes out.old (ended (tail_of letter reply)) out.new }
{
    match letter {
        b'A' | b'X' => {
            out.numbers(&[reply.change.up, reply.change.down]);
        }
        b'B' => {
            out.numbers(&[reply.class, reply.granted.up.0, reply.granted.down.0]);
        }
        _ => {}
    }
    out.byte(b'\n');
}

pub fn put_answer(out: &mut Buffer, position: u64, letter: u8, reply: Reply)
    ensures { Takes out.old (answer_line position letter reply) out.new }
{
    out.number(position);
    out.byte(b' ');
    out.byte(letter);
    out.numbers(&[reply.refusal, reply.place]);
    put_tail(out, letter, reply);
}

// The first line.
pub fn put_calls(out: &mut Buffer, count: u64)
    ensures { Takes out.old (calls_line count) out.new }
{
    out.word(b"calls");
    out.numbers(&[count]);
    out.byte(b'\n');
}

// The last line.
pub fn put_booked(out: &mut Buffer, up: i64, down: i64)
    ensures { Takes out.old (bytes "booked" ++ ended (signed up ∷ signed down ∷ [])) out.new }
{
    out.word(b"booked");
    out.numbers(&[up, down]);
    out.byte(b'\n');
}
