// A `b=` line of a media section: AS, TIAS, RS or RR, in bit/s.
ghost use Rattle.std.specs.Prelude.{◌≡◌};
ghost use Rattle.sdp.specs.Bandwidth.{bandwidth_of};
ghost use Rattle.lines.specs.Steps.{amount_of};

use cursor::Cursor;
use sdp::bandwidth::{Kbit, Rate};

// 1 to 10 digits from `at`, after the modifier and its colon, up to the end, at most max.
#[tactic(auto, using(cursor::proofs::Kit::answers), unfolding(crate::specs::Steps::amount_of))]
fn amount(v: &[u8], at: usize, max: u32) -> Option<u32>
    ensures { result ≡ amount_of v.now at max }
{
    let (n, next) = (Cursor { at }).figure(v, 10, u64::from(max))?;
    if next.at == v.len() {
        Some(n as u32)
    } else {
        None
    }
}

// The value of a `b=` line.
pub fn says(v: &[u8]) -> Option<Rate>
    ensures { result ≡ bandwidth_of v.now }
{
    if cursor::starts(v, 0, b"AS:") {
        let kilobits = Kbit(amount(v, 3, 4294967)?);
        return Some(Rate::As(kilobits.bits().0 as u32));
    }
    if cursor::starts(v, 0, b"TIAS:") {
        return Some(Rate::Tias(amount(v, 5, u32::MAX)?));
    }
    if cursor::starts(v, 0, b"RS:") {
        return Some(Rate::Rs(amount(v, 3, u32::MAX)?));
    }
    if cursor::starts(v, 0, b"RR:") {
        return Some(Rate::Rr(amount(v, 3, u32::MAX)?));
    }
    Some(Rate::Other)
}
