// What a session holds, as text in a lent buffer.
#![tactic(auto)]

mod line;
mod lines;

ghost use Rattle.std.specs.Prelude.{◌≡◌, length};
ghost use Rattle.statement.specs.Statement.{written, after};

use flow::Held;
use statement::Written;

// Where the buffer holds as many lines of the longest kind, which is 1,386 bytes for eight components, it is written at once. Else it is measured on
// an empty part of the buffer, and written where it fits.
pub fn write(held: &Held, out: &mut [u8]) -> Written
    ensures value { result ≡ written held.now (length out.old) }
    ensures out_after { out.new ≡ after held.now out.old }
{
    let most = 42 + 168 * (flow::up_to_eight(u64::from(held.count)) as usize);
    if out.len() < most {
        let need = lines::put_all(held, &mut out[..0]);
        if out.len() < need {
            return Written {
                refusal: 20,
                length: need as u64,
            };
        }
    }
    let length = lines::put_all(held, out);
    Written {
        refusal: 0,
        length: length as u64,
    }
}
