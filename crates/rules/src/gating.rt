// The gates of a component.
ghost use Rattle.std.specs.Prelude.{◌≡◌};
ghost use Rattle.flow.specs.Gates.{up_at, down_at, gates_of};

use flow::status::Status;
use flow::{Component, Gates, Ways};

// Whether the status lets media pass up, and down.
fn passes(status: u16) -> (bool, bool)
    ensures { result ≡ (up_at status, down_at status) }
{
    match Status::try_from(status) {
        Ok(Status::EnabledUplink) => (true, false),
        Ok(Status::EnabledDownlink) => (false, true),
        Ok(Status::Enabled) => (true, true),
        _ => (false, false),
    }
}

// Which gates are open, by its status; none in a direction that is not described, and none of RTCP where there is no RTCP flow.
pub fn gates(c: &Component) -> Gates
    ensures { result ≡ gates_of c.now }
{
    let (up, down) = passes(c.status);
    let rtcp = u32::from((up | down) & c.has_rtcp());
    Gates {
        media: Ways {
            up: u32::from(up & c.up.is_described()),
            down: u32::from(down & c.down.is_described()),
        },
        rtcp: Ways {
            up: rtcp,
            down: rtcp,
        },
    }
}
