// The book of sessions: what a row, a look at rows and an answer are, and what is refused of a call. What they mean, and the demands, is in specs/
// and proofs/; the calls are in the crates above.
#![tactic(auto)]

mod refusal;

use flow::{Descriptions, Held, Rates};
pub use refusal::{Refusal, Refused};
use sdp::Bps;

// An open offer: present 1, who offered (0 the handset, 1 the network) and what the text said; all zeros where none is open.
#[repr(C)]
#[derive(Clone, Copy)]
pub struct Offer {
    pub present: u16,
    pub origin: u16,
    pub said: Descriptions,
}

// A session: what it holds, and its open offer. All zeros when fresh.
#[repr(C)]
#[derive(Clone, Copy)]
pub struct Row {
    pub held: Held,
    pub offer: Offer,
}

// What a look at rows saw: how many (17 for more than 16), 1 where all are in range, and the booked totals.
#[repr(C)]
#[derive(Clone, Copy)]
pub struct Seen {
    pub rows: u64,
    pub sound: u64,
    pub booked: Rates,
}

// New booking minus old.
#[repr(C)]
#[derive(Clone, Copy)]
pub struct Change {
    pub up: i64,
    pub down: i64,
}

// The answer to any call; what a call does not answer is 0.
#[repr(C)]
#[derive(Clone, Copy)]
pub struct Reply {
    pub refusal: u64,
    pub place: u64,
    pub change: Change,
    pub class: u64,
    pub granted: Rates,
    pub length: u64,
}

impl Reply {
    // Accepted, with nothing more to say.
    pub const ACCEPTED: Reply = Reply {
        refusal: 0,
        place: 0,
        change: Change { up: 0, down: 0 },
        class: 0,
        granted: Rates {
            up: Bps(0),
            down: Bps(0),
        },
        length: 0,
    };
}

// A row after a call, and the answer.
#[repr(C)]
#[derive(Clone, Copy)]
pub struct Stepped {
    pub row: Row,
    pub reply: Reply,
}
