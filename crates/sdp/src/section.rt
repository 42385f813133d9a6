// A section of a text: what its lines have said so far.
use crate::{Address, Media, Requested, Spot};

// Its description so far (direction 0: none yet; address: its own; requested rate: its AS), the number of its `m=` line (0 in
// the session section), its TIAS, and where its lines stand (a media section's direction line: the session section's until it
// has its own).
#[derive(Clone, Copy, Default)]
pub struct Section {
    pub media: Media,
    pub line: u16,
    pub tias: Requested,
    pub spot: Spot,
}

// What the session section says for the media sections that do not say it themselves: its address, and its direction (sendrecv
// where it has none) with where that line stands, from `from` to before `to` (0 and 0 where it has none).
#[derive(Clone, Copy, Default)]
pub struct Session {
    pub address: Address,
    pub direction: u16,
    pub from: u16,
    pub to: u16,
}
