// What a file is made of: numbers alone on their lines, rows of numbers, and texts that stand after the line with their length.
#![tactic(auto)]

ghost use Rattle.std.specs.Prelude.{◌≡◌, length, replicate, IfNone};
ghost use Rattle.frame.specs.Frame.{number_at, number_line, text_at, numbers_at, row_of};

use cursor::Cursor;

// The bytes of a text: from its first place to before its second.
#[derive(Clone, Copy)]
pub struct Span {
    pub from: usize,
    pub end: usize,
}

// A number has 1 to 10 digits and is at most 4,294,967,295.
#[tactic(auto, unfolding(crate::specs::Frame::number_at))]
pub fn number(s: &[u8], at: Cursor) -> Option<(u64, Cursor)>
    ensures { result ≡ number_at s.now at.at }
{
    at.figure(s, 10, 4294967295)
}

// A number and the LF after it.
pub fn number_line(s: &[u8], at: Cursor) -> Option<(u64, Cursor)>
    ensures { result ≡ number_line s.now at.at }
{
    let (n, end) = number(s, at)?;
    let next = end.mark(s, b'\n')?;
    Some((n, next))
}

// A text: its length line, then its bytes.
pub fn text(s: &[u8], at: Cursor) -> Option<Span>
    ensures { result ≡ text_at s.now at.at }
{
    let (n, first) = number_line(s, at)?;
    let from = first.at;
    if ((s.len() - from) as u64) < n {
        return None;
    }
    Some(Span {
        from,
        end: from + n as usize,
    })
}

const MOST_NUMBERS: usize = 12;

// The numbers of a row, each behind the byte b. No row has more than twelve.
fn row(s: &[u8], from: Cursor, b: u8, figures: &mut [u64]) -> Option<Cursor>
    ensures row { row_of figures.new result ≡ numbers_at s.now from.at (length figures.old) b }
    ensures places { length figures.new ≡ length figures.old }
{
    if MOST_NUMBERS < figures.len() {
        return None;
    }
    let mut at = from;
    for place in figures.iter_mut() {
        let mark = at.mark(s, b)?;
        let (n, next) = number(s, mark)?;
        *place = n;
        at = next;
    }
    Some(at)
}

// A row of as many numbers as `figures` has places. They are all zeros where it is none.
pub fn numbers_into(s: &[u8], from: Cursor, b: u8, figures: &mut [u64]) -> Option<Cursor>
    ensures row { row_of figures.new result ≡ numbers_at s.now from.at (length figures.old) b }
    ensures none { IfNone result (figures.new ≡ replicate (length figures.old) 0) }
    ensures places { length figures.new ≡ length figures.old }
{
    let after = row(s, from, b, figures);
    if after.is_none() {
        figures.fill(0);
    }
    after
}

// A row of N numbers.
pub fn numbers_behind<const N: usize>(s: &[u8], from: Cursor, b: u8) -> Option<([u64; N], Cursor)>
    ensures { result ≡ numbers_at s.now from.at N b }
{
    let mut figures = [0; N];
    let after = numbers_into(s, from, b, &mut figures)?;
    Some((figures, after))
}
