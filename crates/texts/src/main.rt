// What the texts on standard input say, on standard output.
//
// Each text comes after a line of its own with its length, 1 to 10 digits. Each answer is `text I refused N P`, or
// `text I good COUNT` and a line for each media description. `bad file` is the last line where the input has another form.
#![tactic(auto)]

mod answer;
mod media;

use console::entries::{self, Answers};
use cursor::Cursor;
use std::io::{self, Write};

#[derive(Drop)]
struct Texts;

impl Answers for Texts {
    #[tactic(auto, using(frame::proofs::Lines::text_within))]
    fn answer_first<'a, W: Write>(
        &mut self,
        to: &mut W,
        i: u64,
        rest: &'a [u8],
    ) -> io::Result<Option<&'a [u8]>> {
        let Some(text) = frame::text(rest, Cursor { at: 0 }) else {
            return Ok(None);
        };
        answer::answer(to, i, reader::read(&rest[text.from..text.end]))?;
        Ok(Some(&rest[text.end..]))
    }
}

fn main(rt: HostRuntime) -> io::Result<()> {
    entries::answer_input(&mut rt.stdin(), &mut rt.stdout(), &mut Texts)
}
