// The line of a component:
// J KIND TRANSPORT STATUS CLASS media A:P A:P rtcp A:P A:P rates MU MD RU RD gates MU MD RU RD
use flow::{Component, Destinations};
use rules::{gating, sending};
use std::fmt;
use std::io::{self, Write};

// The uplink's first.
#[derive(Clone, Copy)]
struct Ends(Destinations);

impl fmt::Display for Ends {
    fn fmt<W: fmt::Write>(&self, f: &mut fmt::Formatter<W>) -> fmt::Result {
        let Destinations { up, down } = self.0;
        write!(
            f,
            "{}:{} {}:{}",
            up.address, up.port, down.address, down.port
        )
    }
}

// The line of the component of number j.
pub fn line<W: Write>(to: &mut W, j: u64, c: &Component) -> io::Result<()> {
    write!(
        to,
        "{j} {} {} {} {} media {} rtcp {}",
        c.kind,
        c.transport,
        c.status,
        c.class,
        Ends(sending::media_destinations(c)),
        Ends(sending::rtcp_destinations(c)),
    )?;
    write!(
        to,
        " rates {} {} {} {}",
        c.up.media, c.down.media, c.up.rtcp.0, c.down.rtcp.0
    )?;
    let gates = gating::gates(c);
    writeln!(
        to,
        " gates {} {} {} {}",
        gates.media.up, gates.media.down, gates.rtcp.up, gates.rtcp.down
    )
}
