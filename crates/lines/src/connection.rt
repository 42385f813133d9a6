// A `c=` line: an IPv4 address.
ghost use Rattle.std.specs.Prelude.{◌≡◌, ◌≤◌};
ghost use Rattle.sdp.specs.Connection.{joined, connection_of};
ghost use Rattle.lines.specs.Steps.{dotted_at, address_at};

use cursor::Cursor;
use sdp::Address;

// A number 0-255 of 1 to 3 digits, and the dot after it.
#[tactic(auto, using(cursor::proofs::Kit::answers), unfolding(crate::specs::Steps::dotted_at))]
fn dotted(v: &[u8], c: Cursor) -> Option<(u64, Cursor)>
    ensures { result ≡ dotted_at v.now c.at }
{
    let (n, after) = c.figure(v, 3, 255)?;
    let next = after.mark(v, b'.')?;
    Some((n, next))
}

// Four numbers as one.
fn join(a: u64, b: u64, c: u64, d: u64) -> u32
    requires { (a ≤ 255) × ((b ≤ 255) × ((c ≤ 255) × (d ≤ 255))) }
    ensures { result ≡ joined a b c d }
{
    (((a * 256 + b) * 256 + c) * 256 + d) as u32
}

// Four of them, and nothing after.
#[tactic(auto, using(cursor::proofs::Kit::answers, crate::proofs::Addresses::joined_is), unfolding(crate::specs::Steps::address_at))]
fn address(v: &[u8], p0: Cursor) -> Option<Address>
    ensures { result ≡ address_at v.now p0.at }
{
    let (a, p1) = dotted(v, p0)?;
    let (b, p2) = dotted(v, p1)?;
    let (c, p3) = dotted(v, p2)?;
    let (d, p4) = p3.figure(v, 3, 255)?;
    if p4.at != v.len() {
        return None;
    }
    Some(Address {
        known: 1,
        bits: join(a, b, c, d),
    })
}

// The value of a `c=` line.
#[tactic(auto, using(crate::proofs::Addresses::no_word, crate::proofs::Addresses::worded))]
pub fn says(v: &[u8]) -> Option<Address>
    ensures { result ≡ connection_of v.now }
{
    let p0 = (Cursor { at: 0 }).word(v, b"IN IP4 ")?;
    address(v, p0)
}
