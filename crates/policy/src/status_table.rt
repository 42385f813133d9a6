// The status rule of table 6.2.1 (Flow-Status) as a table: docs/STATUS-TABLE.md has the rows beside the clause's.
ghost use Rattle.std.specs.Prelude.{◌≡◌, Some};
ghost use Rattle.policy.specs.StatusTable.{met, fits, rows, status_by};

use Direction::{Inactive, Recvonly, Sendonly};
use Port::Zero;
use Sdp::{Downlink, Uplink};
use Status::{Disabled, Enabled, EnabledDownlink, EnabledUplink, Removed};
use flow::status::Status;
use sdp::direction::Direction;

#[derive(Clone, Copy, PartialEq, Eq)]
pub enum Port {
    Zero,
    NotZero,
}

// <SDP direction> (NOTE 8): the uplink SDP, UE originated, was received from the handset; the downlink SDP, UE terminated, from the network.
#[derive(Clone, Copy, PartialEq, Eq)]
pub enum Sdp {
    Uplink,
    Downlink,
}

// What the rows are asked about: whether either port is 0; of the text that decides, its direction and which SDP it is.
#[derive(Clone, Copy)]
pub struct Case {
    pub port: Port,
    pub direction: Direction,
    pub sdp: Sdp,
}

// The port, the direction and the SDP that a row asks for, each `None` where it does not ask, and the status that it gives.
#[derive(Clone, Copy)]
pub struct StatusRow(
    pub Option<Port>,
    pub Option<Direction>,
    pub Option<Sdp>,
    pub Status,
);

// The clause's rows, in its order; the first that fits decides. NOTE 5, after the last ENDIF, is for all of them: whose direction counts (`status_of`); the
// port is either text's, by document 01. The clause's row for TCP (NOTE 9) would stand second: no text with TCP is accepted. NOTE 4 of this table, an
// operator's cut of early media, is not used.
const TABLE: [StatusRow; 7] = [
    // 1: IF port in m-line = 0 THEN (NOTE 5)
    StatusRow(Some(Zero), None, None, Removed),
    // 2: IF a=recvonly THEN IF <SDP direction> = UE originated THEN (NOTE 8, NOTE 4, NOTE 5)
    StatusRow(None, Some(Recvonly), Some(Uplink), EnabledDownlink),
    // 3: IF a=recvonly THEN .. ELSE /* UE terminated */ (NOTE 8, NOTE 4, NOTE 5)
    StatusRow(None, Some(Recvonly), Some(Downlink), EnabledUplink),
    // 4: IF a=sendonly THEN IF <SDP direction> = UE originated THEN (NOTE 8, NOTE 4, NOTE 5)
    StatusRow(None, Some(Sendonly), Some(Uplink), EnabledUplink),
    // 5: IF a=sendonly THEN .. ELSE /* UE terminated */ (NOTE 8, NOTE 4, NOTE 5)
    StatusRow(None, Some(Sendonly), Some(Downlink), EnabledDownlink),
    // 6: IF a=inactive THEN (NOTE 5)
    StatusRow(None, Some(Inactive), None, Disabled),
    // 7: ELSE /* a=sendrecv or no direction attribute */ (NOTE 4, NOTE 5)
    StatusRow(None, None, None, Enabled),
];

// Whether it is as a row wants it, or the row does not ask.
#[tactic(auto, unfolding(crate::specs::StatusTable::met))]
fn is_met<T: PartialEq + Copy>(wanted: Option<T>, is: T) -> bool
    ensures { result ≡ met T.eq wanted is }
{
    match wanted {
        Some(wanted) => wanted == is,
        None => true,
    }
}

impl StatusRow {
    // Whether all that the row asks for is so.
    fn fits(&self, c: &Case) -> bool
        ensures { result ≡ fits self.now c.now }
    {
        is_met(self.0, c.port) & is_met(self.1, c.direction) & is_met(self.2, c.sdp)
    }
}

// The status by the first row that fits. The last one asks nothing.
pub fn status_by(c: Case) -> Status
    ensures { status_by rows c ≡ Some result }
{
    for row in &TABLE {
        if row.fits(&c) {
            return row.3;
        }
    }
    unreachable!()
}
