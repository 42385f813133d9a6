// The answer to one text.
use crate::media;
use sdp::Text;
use std::io::{self, Write};

// The answer to the text of number i.
pub fn answer<W: Write>(to: &mut W, i: u64, t: Text) -> io::Result<()> {
    if t.refusal != 0 {
        return writeln!(to, "text {i} refused {} {}", t.refusal, t.place);
    }
    writeln!(to, "text {i} good {}", t.count)?;
    let sections = t.media.iter().zip(&t.spots).take(t.count as usize);
    for (j, (m, s)) in (1u64..).zip(sections) {
        media::line(to, j, m, s)?;
    }
    Ok(())
}
