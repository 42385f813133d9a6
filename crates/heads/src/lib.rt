// An `m=` line: media, port, transport, at least one format.
#![tactic(auto)]

ghost use Rattle.std.specs.Prelude.{◌≡◌};
ghost use Rattle.sdp.specs.Media.{kind_of, transport_of, verdict};
ghost use Rattle.heads.specs.Steps.{fields_at, head_at};

use cursor::Cursor;
use sdp::fault::Fault;
use sdp::media_line::{Kind, MediaLine, Transport};

// The three fields before the formats, and the cursor at the formats.
#[derive(Clone, Copy)]
pub struct Head {
    pub kind: Kind,
    pub port: u16,
    pub transport: Option<Transport>,
    pub formats: Cursor,
}

pub fn kind_of(w: &[u8]) -> Kind
    ensures { result ≡ kind_of w.now }
{
    if cursor::same(w, b"audio") {
        return Kind::Audio;
    }
    if cursor::same(w, b"video") {
        return Kind::Video;
    }
    if cursor::same(w, b"application") {
        return Kind::Application;
    }
    if cursor::same(w, b"data") {
        return Kind::Data;
    }
    if cursor::same(w, b"control") {
        return Kind::Control;
    }
    Kind::Other
}

pub fn transport_of(w: &[u8]) -> Option<Transport>
    ensures { result ≡ transport_of w.now }
{
    if cursor::same(w, b"RTP/AVP") {
        return Some(Transport::Rtp);
    }
    if cursor::same(w, b"udp") {
        return Some(Transport::Udp);
    }
    None
}

// The three fields of an `m=` line's value, one space after each.
#[tactic(auto, using(cursor::proofs::Kit::answers), unfolding(crate::specs::Steps::fields_at))]
fn fields_of(v: &[u8]) -> Option<Head>
    ensures { result ≡ fields_at v.now }
{
    let (a, b, p1) = (Cursor { at: 0 }).field(v)?;
    let p2 = p1.space(v)?;
    let (port, p3) = p2.figure(v, 5, 65535)?;
    let p4 = p3.space(v)?;
    let (c, d, p5) = p4.field(v)?;
    let formats = p5.space(v)?;
    Some(Head {
        kind: kind_of(&v[a..b]),
        port: port as u16,
        transport: transport_of(&v[c..d]),
        formats,
    })
}

// The value of an `m=` line up to its formats, where `count` such lines came before.
pub fn head_of(count: u32, v: &[u8]) -> Result<Head, Fault>
    ensures { result ≡ head_at count v.now }
{
    if 8 <= count {
        return Err(Fault::Ninth);
    }
    fields_of(v).ok_or(Fault::MediaLine)
}

// The fields are good: is the transport known, and the port low enough for it?
#[tactic(auto, using(crate::proofs::Judged::judge_high, crate::proofs::Judged::judge_rtp, crate::proofs::Judged::judge_udp, crate::proofs::Judged::judge_unknown))]
pub fn judge(h: Head) -> Result<MediaLine, Fault>
    ensures { result ≡ verdict h.kind h.port h.transport }
{
    match h.transport {
        Some(Transport::Rtp) if 65534 < h.port => Err(Fault::MediaLine),
        Some(transport) => Ok(MediaLine {
            kind: u16::from(h.kind),
            transport: u16::from(transport),
            port: h.port,
        }),
        None => Err(Fault::Transport),
    }
}
