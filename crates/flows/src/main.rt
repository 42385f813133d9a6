// The flows of the exchanges on standard input, on standard output.
//
// Each exchange is a line with its head, 1 to 10 digits, then its offer and its answer, each after a line of its own with
// its length. Each answer is `exchange I refused N P FAILED`, or `exchange I count N kept K`, two lines for each component
// and one for a bearer. `bad file` is the last line where the input has another form.
#![tactic(auto)]

mod answer;
mod component;
mod exchange;
mod head;
mod parts;
mod states;

use crate::states::States;
use console::entries::{self, Answers};
use std::io::{self, Write};

impl Answers for States {
    fn answer_first<'a, W: Write>(
        &mut self,
        to: &mut W,
        i: u64,
        rest: &'a [u8],
    ) -> io::Result<Option<&'a [u8]>> {
        let Some(exchange) = parts::first(rest) else {
            return Ok(None);
        };
        *self = exchange::play(to, i, *self, &exchange)?;
        Ok(Some(exchange.rest))
    }
}

fn main(rt: HostRuntime) -> io::Result<()> {
    let states = &mut States::new();
    entries::answer_input(&mut rt.stdin(), &mut rt.stdout(), states)
}
