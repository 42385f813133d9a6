// Whether a component is in range, and whether it is none: by words that are 0 where a test is good, and one comparison.
ghost use Rattle.std.specs.Prelude.{◌≡◌, ◌+◌, ◌*◌, ◌%◌, ◌&&◌, ◌==◌, nat_le};
ghost use Rattle.sdp.specs.Range.{from1};
ghost use Rattle.flow.specs.Range.{is_class, rates_in, component_in, is_no_way, is_no_component};

use crate::{Slot, words};
use flow::{Component, Way};

// 0 where kind is 1 to 6, transport 1 or 2, status to 4 and class to 9: no test of a single field.
#[tactic(auto, using(crate::proofs::Heads::component_head))]
fn head_bad(c: &Component) -> u64
    ensures { (result == 0) ≡ (from1 6 c.now.kind && (from1 2 c.now.transport && (nat_le c.now.status 4 && nat_le c.now.class 9))) }
{
    let head = words::of_16(c.kind, c.transport, c.status, c.class);
    // less 1 of kind and transport; to 6, 2, 4 and 9
    words::past_bounds(
        head,
        0x0000_0000_0001_0001,
        0x7ff6_7ffb_7ffe_7ffa,
        0x8000_8000_8000_8000,
    )
}

// 0 where the class below 64 is one of 0, 2, 4, 6, 8, 9: those bits are clear.
#[tactic(auto, using(crate::proofs::Classes::class_bits))]
fn class_bad(class: u16) -> u64
    ensures { (result == 0) ≡ is_class (class % 64) }
{
    (0xffff_ffff_ffff_fcaa_u64 >> (class % 64)) % 2
}

// 0 where the port is to 65,535, and to 65,534 of an odd transport, and described is 0 or 1. The end itself is tested
// too: a port of 0xffff_ffff and 1 would carry into described and look good.
#[tactic(auto, using(crate::proofs::Ends::end_word))]
fn end_bad(transport: u16, w: Way) -> u64
    ensures { (result == 0) ≡ (nat_le (w.port + transport % 2) 65535 && nat_le w.described 1) }
{
    let end = words::of_32(w.port, w.described);
    let next = end.wrapping_add(u64::from(transport % 2));
    // all but a port of 16 bits and a described of one
    (end & 0xffff_fffe_ffff_0000) | (next & 0xffff_fffe_ffff_0000)
}

// 0 where a rate is at most 8,589,934,590, so that the next one too has no bit past the 33rd.
#[tactic(auto, using(crate::proofs::Rates::rate_word))]
fn rate_bad(rate: u64) -> u64
    ensures { (result == 0) ≡ nat_le rate 8589934590 }
{
    (rate | rate.wrapping_add(1)) >> 33
}

// 0 where a way is in range; its address and its media rate are so by their width.
#[tactic(auto, using(crate::proofs::Components::way_word))]
fn way_bad(transport: u16, w: Way) -> u64
    ensures { (result == 0) ≡ (nat_le (w.port + transport % 2) 65535 && (nat_le w.described 1 && (nat_le w.address 4294967295 && rates_in w))) }
{
    end_bad(transport, w) | rate_bad(w.rtcp.0)
}

// 0 where a way is none.
#[tactic(auto, using(crate::proofs::Zeros::no_way_lem))]
fn way_bits(w: Way) -> u64
    ensures { (result == 0) ≡ is_no_way w }
{
    w.rtcp.0 | (words::of_32(w.address, w.media) | words::of_32(w.port, w.described))
}

impl Slot for Component {
    ghost range = { component_in };

    ghost none = { is_no_component };

    #[tactic(auto, using(crate::proofs::Components::component_word))]
    fn is_in_range(&self) -> bool {
        let head = head_bad(self) | class_bad(self.class);
        let ways = way_bad(self.transport, self.up) | way_bad(self.transport, self.down);
        head | ways == 0
    }

    #[tactic(auto, using(crate::proofs::Zeros::no_component_lem))]
    fn is_none(&self) -> bool {
        let head = words::of_16(self.kind, self.transport, self.status, self.class);
        head | (way_bits(self.up) | way_bits(self.down)) == 0
    }
}
