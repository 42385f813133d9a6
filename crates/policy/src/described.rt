// The described directions of a media flow (table 6.2.2, Flow-Description).
ghost use Rattle.std.specs.Prelude.{◌≡◌};
ghost use Rattle.flow.specs.Described.{stays_both};
ghost use Rattle.flow.specs.Session.{status_number};
ghost use Rattle.policy.specs.Steps.{described_by};

use flow::Was;
use flow::status::Status;

// Whether the component, with this kind now, stays described both ways.
#[tactic(auto, unfolding(flow::specs::Described::stays_both))]
pub fn stays_both(was: &Was, kind: u16) -> bool
    ensures { result ≡ stays_both was.now kind }
{
    (was.up != 0) & (was.down != 0) & (was.kind == kind)
}

// Whether the direction is described in which this status alone would enable the flow.
pub fn is_described(alone: Status, status: Status, both: bool) -> bool
    ensures { result ≡ described_by (status_number alone) (status_number status) both }
{
    match status {
        Status::Removed => false,
        Status::Enabled | Status::Disabled => true,
        _ => both | (status == alone),
    }
}
