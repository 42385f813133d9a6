// The flows of a call (document 01, "Deriving from offer and answer"): what a session holds and what is asked of it. What they mean, and what
// holds of it, is in specs/ and proofs/; the code is in `policy`.
#![tactic(auto)]

pub mod status;

ghost use Rattle.std.specs.Prelude.{◌≡◌, length, take};
ghost use Rattle.flow.specs.Described.{has_rtcp};
ghost use Rattle.flow.specs.Session.{live, described};
ghost use Rattle.flow.specs.Slots.{up_to_eight};

use sdp::media_line::Transport;
use sdp::{Bps, Media};
use status::Status;

// A figure for each direction, as the settings give them.
#[repr(C)]
#[derive(Clone, Copy)]
pub struct Limit {
    pub up: u32,
    pub down: u32,
}

// The six settings.
#[repr(C)]
#[derive(Clone, Copy)]
pub struct Settings {
    pub media: Limit,
    pub rtcp: Limit,
    pub pool: Limit,
}

#[repr(C)]
#[derive(Clone, Copy)]
pub struct Rates {
    pub up: Bps,
    pub down: Bps,
}

// One direction of a component: the RTCP rate, the address that its packets go to, the media rate, the port, and 1 where the media flow is
// described in this direction, else 0. A live component has address and port whether described or not, since RTCP goes there too, to the
// port one above. All zeros of a removed one.
#[repr(C)]
#[derive(Clone, Copy, Default)]
pub struct Way {
    pub rtcp: Bps,
    pub address: u32,
    pub media: u32,
    pub port: u32,
    pub described: u32,
}

// Kind and transport as in a media description, status 0 to 4, class 0, 2, 4, 6, 8 or 9.
#[repr(C)]
#[derive(Clone, Copy, Default)]
pub struct Component {
    pub kind: u16,
    pub transport: u16,
    pub status: u16,
    pub class: u16,
    pub up: Way,
    pub down: Way,
}

// What a session holds: 1 where an exchange was completed since its last close, the kept class, and the components last
// derived, all zeros past the count.
#[repr(C)]
#[derive(Clone, Copy)]
pub struct Held {
    pub completed: u16,
    pub kept: u16,
    pub count: u32,
    pub components: [Component; 8],
}

// A component as it was before an exchange: its kind, and 1 where it was live, described up, described down, else 0.
#[repr(C)]
#[derive(Clone, Copy, Default)]
pub struct Was {
    pub kind: u16,
    pub live: u16,
    pub up: u16,
    pub down: u16,
}

// All that deriving reads of what was there: the kept class, and the components; all zeros past their count.
#[repr(C)]
#[derive(Clone, Copy)]
pub struct Before {
    pub kept: u16,
    pub components: [Was; 8],
}

// The media descriptions of a text, all zeros past the count.
#[repr(C)]
#[derive(Clone, Copy)]
pub struct Descriptions {
    pub count: u32,
    pub media: [Media; 8],
}

// Where the packets of one direction of a flow go; zeros where it is not described.
#[repr(C)]
#[derive(Clone, Copy, Default)]
pub struct Destination {
    pub address: u64,
    pub port: u64,
}

#[repr(C)]
#[derive(Clone, Copy)]
pub struct Destinations {
    pub up: Destination,
    pub down: Destination,
}

// 15 and its place, or 0 and 0.
#[repr(C)]
#[derive(Clone, Copy, Default)]
pub struct Fit {
    pub refusal: u64,
    pub place: u64,
}

// The gates of a flow: 1 where open, else 0.
#[repr(C)]
#[derive(Clone, Copy)]
pub struct Ways {
    pub up: u32,
    pub down: u32,
}

// The gates of a component.
#[repr(C)]
#[derive(Clone, Copy)]
pub struct Gates {
    pub media: Ways,
    pub rtcp: Ways,
}

// What a bearer asks for. Component 1 is bit value 1 of the set.
#[repr(C)]
#[derive(Clone, Copy)]
pub struct Asked {
    pub set: u64,
    pub class: u64,
    pub up: u64,
    pub down: u64,
}

// Refusal 0, 17 or 18, and the class and the rates authorised over the set; zeros on 18.
#[repr(C)]
#[derive(Clone, Copy)]
pub struct Authorised {
    pub refusal: u64,
    pub class: u64,
    pub up: u64,
    pub down: u64,
}

// Refusal 0 and the deciding line: in text 1, the offer, or 2, the answer, from `start` to before `end`.
// Or the refusal, its place and which text failed (1 offer, 2 answer, else 0), and an empty part of the answer.
#[repr(C)]
#[derive(Clone, Copy)]
pub struct Decision {
    pub refusal: u64,
    pub place: u64,
    pub failed: u64,
    pub text: u64,
    pub start: u64,
    pub end: u64,
}

// A count past eight counts as eight.
#[tactic(auto, using(crate::proofs::Slots::eight_min))]
pub fn up_to_eight(count: u64) -> u64
    ensures { result ≡ up_to_eight count }
{
    count.min(8)
}

// Whether a component of this status and transport has an RTCP flow: a live RTP/AVP one.
pub fn has_rtcp(status: u16, transport: u16) -> bool
    ensures { result ≡ has_rtcp status transport }
{
    (status != u16::from(Status::Removed)) & (transport == u16::from(Transport::Rtp))
}

impl Way {
    // Whether the media flow is described in this direction.
    pub fn is_described(&self) -> bool
        ensures { result ≡ described self.now }
    {
        self.described != 0
    }
}

impl Component {
    pub fn is_live(&self) -> bool
        ensures { result ≡ live self.now }
    {
        self.status != u16::from(Status::Removed)
    }

    pub fn has_rtcp(&self) -> bool
        ensures { result ≡ has_rtcp self.now.status self.now.transport }
    {
        has_rtcp(self.status, self.transport)
    }
}

impl Held {
    // Its components up to the count.
    #[tactic(auto, using(crate::proofs::Slots::eight_most))]
    pub fn used(&self) -> &[Component]
        ensures first { result.now ≡ take (up_to_eight self.now.count) self.now.components }
        ensures count { length result.now ≡ up_to_eight self.now.count }
    {
        &self.components[..up_to_eight(self.count as u64) as usize]
    }
}

impl Descriptions {
    // Its media descriptions up to the count.
    #[tactic(auto, using(crate::proofs::Slots::eight_most))]
    pub fn used(&self) -> &[Media]
        ensures first { result.now ≡ take (up_to_eight self.now.count) self.now.media }
        ensures count { length result.now ≡ up_to_eight self.now.count }
    {
        &self.media[..up_to_eight(self.count as u64) as usize]
    }
}
