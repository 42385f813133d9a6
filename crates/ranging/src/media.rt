// Whether a media description is in range, and whether it is none: by words that are 0 where a test is good, and one comparison.
ghost use Rattle.std.specs.Prelude.{◌≡◌, ◌+◌, ◌*◌, ◌%◌, true, ◌&&◌, if◌then◌else◌, ◌==◌, nat_eq, nat_le};
ghost use Rattle.sdp.specs.Range.{from1, media_in, is_no_media};

use crate::{Slot, words};
use sdp::Media;

// 0 where kind is 1 to 6, transport 1 or 2 and direction 1 to 4; the port, below them in the word, is not tested.
fn head_bad(m: &Media) -> u64
    ensures { (result == 0) ≡ (from1 6 m.now.kind && (from1 2 m.now.transport && from1 4 m.now.direction)) }
{
    let head = words::of_16(m.port, m.kind, m.transport, m.direction);
    // less 1 of the three; to 6, 2 and 4
    words::past_bounds(
        head,
        0x0001_0001_0001_0000,
        0x7ffc_7ffe_7ffa_0000,
        0x8000_8000_8000_0000,
    )
}

// 0 where the port is to 65,535, and to 65,534 of an odd transport: the sum stays within 16 bits.
#[tactic(auto, using(crate::proofs::Figures::port_word))]
fn port_bad(transport: u16, port: u16) -> u64
    ensures { (result == 0) ≡ nat_le (port + transport % 2) 65535 }
{
    (u64::from(port) + u64::from(transport % 2)) >> 16
}

// 0 where each flag is 0 or 1: all bits but the lowest of each byte are clear.
#[tactic(auto, using(crate::proofs::Figures::flags_word))]
fn flags_bad(m: &Media) -> u64
    ensures { (result == 0) ≡ (nat_le m.now.known 1 && (nat_le m.now.requestedgiven 1 && (nat_le m.now.rsgiven 1 && nat_le m.now.rrgiven 1))) }
{
    words::of_8(m.known, m.requestedgiven, m.rsgiven, m.rrgiven) & 0xfefe_fefe
}

// A figure that is not given, which must be 0; else 0.
fn unless(given: u8, n: u32) -> u64
    ensures { (result == 0) ≡ (if nat_eq given 0 then (n == 0) else true) }
{
    if given == 0 { u64::from(n) } else { 0 }
}

impl Slot for Media {
    ghost range = { media_in };

    ghost none = { is_no_media };

    #[tactic(auto, using(crate::proofs::Medias::media_word))]
    fn is_in_range(&self) -> bool {
        let marks = head_bad(self) | flags_bad(self);
        let firsts = unless(self.known, self.address) | unless(self.requestedgiven, self.requested);
        let seconds = unless(self.rsgiven, self.rs) | unless(self.rrgiven, self.rr);
        marks | ((firsts | seconds) | port_bad(self.transport, self.port)) == 0
    }

    #[tactic(auto, using(crate::proofs::Zeros::no_media_lem))]
    fn is_none(&self) -> bool {
        let head = words::of_16(self.port, self.kind, self.transport, self.direction);
        let flags = words::of_8(self.known, self.requestedgiven, self.rsgiven, self.rrgiven);
        let firsts = words::of_32(self.address, self.requested);
        let seconds = words::of_32(self.rs, self.rr);
        (head | flags) | (firsts | seconds) == 0
    }
}
