// A section of a text: what its lines have said so far, and what it says in the end.
ghost use Rattle.std.specs.Prelude.{◌≡◌, if◌then◌else◌};
ghost use Rattle.sdp.specs.Section.{begun, connection_in, rate_in, bandwidth_in, direction_in, line_in, session_of, closed, lacks};
ghost use Rattle.reader.specs.Steps.{matters};

use lines::{bandwidth, connection, direction};
use sdp::bandwidth::Rate;
use sdp::direction::Direction;
use sdp::fault::Fault;
use sdp::media_line::MediaLine;
use sdp::section::{Section, Session};
use sdp::{Address, Media, Requested, Spot};

// Where a line stands in the text, without its ending: from its first byte to before its second.
#[derive(Clone, Copy)]
pub struct Span {
    pub from: u16,
    pub to: u16,
}

// A media section after its `m=` line, the n-th line of the text. Its direction line is the session's until it has its own.
pub fn begin(session: Session, m: MediaLine, n: u16, line: Span) -> Section
    ensures { result ≡ begun session m n line.from line.to }
{
    let media = Media {
        kind: m.kind,
        transport: m.transport,
        port: m.port,
        ..Media::default()
    };
    let spot = Spot {
        start: line.from,
        end: line.to,
        from: session.from,
        to: session.to,
    };
    Section {
        line: n,
        media,
        spot,
        ..Section::default()
    }
}

// At most one `c=`.
#[tactic(auto, using(crate::proofs::Kit::kit), unfolding(sdp::specs::Section::connection_in))]
fn connection_in(s: Section, v: &[u8]) -> Result<Section, Fault>
    ensures { result ≡ connection_in s v.now }
{
    let Some(a) = connection::says(v) else {
        return Err(Fault::Connection);
    };
    if s.media.known != 0 {
        return Err(Fault::Connection);
    }
    let media = Media {
        address: a.bits,
        known: a.known,
        ..s.media
    };
    Ok(Section { media, ..s })
}

// Each of AS, TIAS, RS and RR at most once.
#[tactic(auto, using(crate::proofs::Kit::kit), unfolding(sdp::specs::Section::rate_in))]
fn rate_in(s: Section, rate: Rate) -> Result<Section, Fault>
    ensures { result ≡ rate_in s rate }
{
    let mut on = s;
    match rate {
        Rate::As(bits) if s.media.requestedgiven == 0 => {
            on.media.requested = bits;
            on.media.requestedgiven = 1;
        }
        Rate::Tias(bits) if s.tias.given == 0 => on.tias = Requested { given: 1, bits },
        Rate::Rs(bits) if s.media.rsgiven == 0 => {
            on.media.rs = bits;
            on.media.rsgiven = 1;
        }
        Rate::Rr(bits) if s.media.rrgiven == 0 => {
            on.media.rr = bits;
            on.media.rrgiven = 1;
        }
        Rate::Other => {}
        _ => return Err(Fault::Bandwidth),
    }
    Ok(on)
}

#[tactic(auto, using(crate::proofs::Kit::kit), unfolding(sdp::specs::Section::bandwidth_in))]
fn bandwidth_in(s: Section, v: &[u8]) -> Result<Section, Fault>
    ensures { result ≡ bandwidth_in s v.now }
{
    let Some(rate) = bandwidth::says(v) else {
        return Err(Fault::Bandwidth);
    };
    rate_in(s, rate)
}

// At most one direction.
#[tactic(auto, using(crate::proofs::Kit::kit), unfolding(sdp::specs::Section::direction_in))]
fn direction_in(s: Section, v: &[u8], line: Span) -> Result<Section, Fault>
    ensures { result ≡ direction_in s v.now line.from line.to }
{
    let Some(d) = direction::says(v) else {
        return Ok(s);
    };
    if s.media.direction != 0 {
        return Err(Fault::Direction);
    }
    let mut on = s;
    on.media.direction = d.into();
    on.spot.from = line.from;
    on.spot.to = line.to;
    Ok(on)
}

// Whether a line other than `m=` can say anything to a section: a `b=`, which a media section alone reads, a `c=`, or an `a=` of
// the length of every direction.
#[tactic(auto, using(crate::proofs::Kit::kit), unfolding(crate::specs::Steps::matters))]
pub fn matters(letter: u8, v: &[u8]) -> bool
    ensures { result ≡ matters letter v.now }
{
    match letter {
        b'a' => v.len() == 8,
        b'b' | b'c' => true,
        _ => false,
    }
}

// A line other than `m=`, by its letter and its value, in the session section or a media section.
#[tactic(auto, using(crate::proofs::Kit::kit), unfolding(sdp::specs::Section::line_in))]
pub fn line_in(s: Section, inside: bool, letter: u8, v: &[u8], line: Span) -> Result<Section, Fault>
    ensures { result ≡ line_in s inside letter v.now line.from line.to }
{
    match letter {
        b'c' => connection_in(s, v),
        b'b' if inside => bandwidth_in(s, v),
        b'a' => direction_in(s, v, line),
        _ => Ok(s),
    }
}

// What a section says itself, or else what stands for it.
fn own_else<T: Copy>(given: bool, own: T, other: T) -> T
    ensures { result ≡ (if given then own else other) }
{
    if given { own } else { other }
}

// What the session section says in the end, after its last line.
pub fn session(s: Section) -> Session
    ensures { result ≡ session_of s }
{
    let address = Address {
        known: s.media.known,
        bits: s.media.address,
    };
    Session {
        address,
        direction: own_else(
            s.media.direction != 0,
            s.media.direction,
            Direction::Sendrecv.into(),
        ),
        from: s.spot.from,
        to: s.spot.to,
    }
}

// What a media section says in the end, after its last line.
#[tactic(auto, unfolding(sdp::specs::Section::closed))]
pub fn close(session: Session, s: Section) -> Media
    ensures { result ≡ closed session s }
{
    let m = s.media;
    let own = Address {
        known: m.known,
        bits: m.address,
    };
    let asked = Requested {
        given: m.requestedgiven,
        bits: m.requested,
    };
    let address = own_else(own.known != 0, own, session.address);
    // AS decides where present, else TIAS.
    let rate = own_else(asked.given != 0, asked, s.tias);
    Media {
        address: address.bits,
        known: address.known,
        direction: own_else(m.direction != 0, m.direction, session.direction),
        requested: rate.bits,
        requestedgiven: rate.given,
        ..m
    }
}

// A port other than 0 needs an address.
#[tactic(auto, unfolding(sdp::specs::Section::lacks))]
pub fn lacks_address(m: Media) -> bool
    ensures { result ≡ lacks m }
{
    m.port != 0 && m.known == 0
}
