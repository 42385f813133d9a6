// The count and the lines of the components.
ghost use Rattle.put.specs.Put.{Puts, Takes};
ghost use Rattle.statement.specs.Statement.{statement_of};

use crate::line::put_component;
use flow::Held;
use put::Buffer;

// Each component's line is lent the rest of the buffer after the line before.
fn put_lines(out: &mut Buffer, held: &Held)
    ensures { Takes out.old (statement_of held.now) out.new }
{
    let count = flow::up_to_eight(u64::from(held.count));
    out.word(b"components");
    out.numbers(&[count]);
    out.byte(b'\n');
    for j in 0..count {
        let from = out.at.min(out.out.len());
        let length = put_component(&mut out.out[from..], j + 1, &held.components[j as usize]);
        out.at = out.at.saturating_add(length);
    }
}

pub fn put_all(held: &Held, out: &mut [u8]) -> usize
    ensures { Puts out.old 0 (statement_of held.now) result out.new }
{
    let mut buffer = Buffer { out, at: 0 };
    put_lines(&mut buffer, held);
    buffer.at
}
