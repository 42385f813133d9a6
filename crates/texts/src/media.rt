// The line of a media description, with `-` for what the text does not give:
// J KIND TRANSPORT PORT ADDRESS DIRECTION requested X RS X RR X m START END a START END
ghost use Rattle.std.specs.Prelude.{◌≡◌, if◌then◌else◌, Some, None, codes};
ghost use Rattle.std.specs.Option.{option_map, unwrap_or};

use sdp::direction::Direction;
use sdp::media_line::{Kind, Transport};
use sdp::{Media, Spot};
use std::fmt;
use std::io::{self, Write};
use std::net::Ipv4Addr;

// What the text gives, or `-`.
#[derive(Drop)]
struct OrDash<T>(Option<T>);

impl<T: fmt::Display> fmt::Display for OrDash<T> {
    ghost output = { λ g. unwrap_or (option_map T.output g.0) (Some (codes "-")) };

    fn fmt<W: fmt::Write>(&self, f: &mut fmt::Formatter<W>) -> fmt::Result {
        match &self.0 {
            Some(x) => write!(f, "{x}"),
            None => write!(f, "-"),
        }
    }
}

fn given<T: Drop>(is: bool, x: T) -> OrDash<T>
    ensures { result.0 ≡ (if is then Some x else None) }
{
    OrDash(is.then_some(x))
}

fn kind(n: u16) -> &'static str {
    match Kind::try_from(n) {
        Ok(Kind::Audio) => "audio",
        Ok(Kind::Video) => "video",
        Ok(Kind::Application) => "application",
        Ok(Kind::Data) => "data",
        Ok(Kind::Control) => "control",
        _ => "other",
    }
}

fn transport(n: u16) -> &'static str {
    match Transport::try_from(n) {
        Ok(Transport::Rtp) => "RTP/AVP",
        _ => "udp",
    }
}

fn direction(n: u16) -> &'static str {
    match Direction::try_from(n) {
        Ok(Direction::Sendrecv) => "sendrecv",
        Ok(Direction::Sendonly) => "sendonly",
        Ok(Direction::Recvonly) => "recvonly",
        _ => "inactive",
    }
}

// The line of the media description of number j.
pub fn line<W: Write>(to: &mut W, j: u64, m: &Media, s: &Spot) -> io::Result<()> {
    write!(
        to,
        "{j} {} {} {} {} {}",
        kind(m.kind),
        transport(m.transport),
        m.port,
        given(m.known != 0, Ipv4Addr::from(m.address)),
        direction(m.direction),
    )?;
    write!(
        to,
        " requested {} RS {} RR {}",
        given(m.requestedgiven != 0, m.requested),
        given(m.rsgiven != 0, m.rs),
        given(m.rrgiven != 0, m.rr),
    )?;
    writeln!(
        to,
        " m {} {} a {} {}",
        s.start,
        s.end,
        given(s.to != 0, s.from),
        given(s.to != 0, s.to),
    )
}
