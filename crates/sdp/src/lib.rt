// What a text says, or its refusal and place (document 01, "Reading a text"). What that means, and its ranges, is in specs/ and proofs/; the
// code that reads is in `reader`.
#![tactic(auto)]

pub mod bandwidth;
pub mod direction;
pub mod fault;
pub mod media_line;
pub mod section;

ghost use Rattle.std.specs.Prelude.{◌≡◌};
ghost use Rattle.sdp.specs.Section.{no_media};

// Bits a second, as they are booked.
#[repr(C)]
#[derive(Clone, Copy, Default)]
pub struct Bps(pub u64);

// An IPv4 address, a.b.c.d as one number, and whether there is one: 1, else 0 and 0.
#[derive(Clone, Copy, Default)]
pub struct Address {
    pub known: u8,
    pub bits: u32,
}

// The rate that a media section requests, in bit/s, and whether it does: 1, else 0 and 0.
#[derive(Clone, Copy, Default)]
pub struct Requested {
    pub given: u8,
    pub bits: u32,
}

// A media description: its address and whether it has one, the requested rate, RS and RR (bit/s) and whether each was given (1, else 0
// and 0), port, kind 1 to 6 (audio, video, application, data, control, other), transport 1 RTP/AVP or 2 udp, direction 1 to 4 (sendrecv,
// sendonly, recvonly, inactive). All zeros where a text has no such media section. Small fields stand side by side, so that they can be
// looked at as one word.
#[repr(C)]
#[derive(Clone, Copy, Default)]
pub struct Media {
    pub address: u32,
    pub requested: u32,
    pub rs: u32,
    pub rr: u32,
    pub port: u16,
    pub kind: u16,
    pub transport: u16,
    pub direction: u16,
    pub known: u8,
    pub requestedgiven: u8,
    pub rsgiven: u8,
    pub rrgiven: u8,
}

// Where the lines of a media section stand in the text, without their endings: its `m=` line from `start` to before `end`,
// its direction line, or else the session section's, from `from` to before `to` (0 and 0 where there is neither).
#[repr(C)]
#[derive(Clone, Copy, Default)]
pub struct Spot {
    pub start: u16,
    pub end: u16,
    pub from: u16,
    pub to: u16,
}

// What a text says: refusal 0, place 0, and `count` media descriptions; or its refusal and place, and nothing else.
#[repr(C)]
#[derive(Clone, Copy, Default)]
pub struct Text {
    pub refusal: u16,
    pub place: u16,
    pub count: u32,
    pub media: [Media; 8],
    pub spots: [Spot; 8],
}

// A number that names no kind, transport or direction.
#[derive(Clone, Copy, PartialEq, Eq)]
pub struct Unnamed(pub u16);

// An unused description: all zeros.
pub fn no_media() -> Media
    ensures { result ≡ no_media }
{
    Media {
        address: 0,
        requested: 0,
        rs: 0,
        rr: 0,
        port: 0,
        kind: 0,
        transport: 0,
        direction: 0,
        known: 0,
        requestedgiven: 0,
        rsgiven: 0,
        rrgiven: 0,
    }
}
