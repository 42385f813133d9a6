// The answer to one exchange.
use crate::component;
use crate::exchange::Refused;
use crate::parts::Exchange;
use flow::{Asked, Held};
use rules::bearing;
use std::io::{self, Write};

pub fn refused<W: Write>(to: &mut W, i: u64, r: Refused) -> io::Result<()> {
    writeln!(
        to,
        "exchange {i} refused {} {} {}",
        r.refusal, r.place, r.failed
    )
}

// The line that decided over component j.
fn deciding_line<W: Write>(to: &mut W, j: u64, e: &Exchange<'_>) -> io::Result<()> {
    write!(to, "{j} by ")?;
    to.write_all(deciding::deciding_line(e.offer, e.answer, j))?;
    writeln!(to)
}

// The line of a bearer that asks for all components, and class 9.
fn bearer<W: Write>(to: &mut W, held: &Held) -> io::Result<()> {
    let asked = Asked {
        set: (1 << held.count.min(8)) - 1,
        class: 9,
        up: 0,
        down: 0,
    };
    let a = bearing::authorise(held, asked);
    writeln!(to, "bearer {} {} {} {}", a.refusal, a.class, a.up, a.down)
}

pub fn completed<W: Write>(to: &mut W, i: u64, held: &Held, e: &Exchange<'_>) -> io::Result<()> {
    writeln!(to, "exchange {i} count {} kept {}", held.count, held.kept)?;
    for (j, c) in (1u64..).zip(held.used()) {
        component::line(to, j, c)?;
        deciding_line(to, j, e)?;
    }
    bearer(to, held)
}
