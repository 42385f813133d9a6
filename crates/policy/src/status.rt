// The status of a component (table 6.2.1, Flow-Status).
ghost use Rattle.std.specs.Prelude.{◌≡◌, Some};
ghost use Rattle.flow.specs.Session.{status_number};
ghost use Rattle.flow.specs.Status.{status, uplink, downlink};
ghost use Rattle.policy.specs.StatusTable.{rows, status_by, port_of, counts_as, case_by};

use crate::status_table::{self, Case, Port, Sdp};
use flow::status::Status;
use sdp::Media;
use sdp::direction::Direction;

// The handset's text, then the other.
#[tactic(auto, unfolding(flow::specs::Status::uplink, flow::specs::Status::downlink))]
pub fn sides<'a>(origin: u64, offer: &'a Media, answer: &'a Media) -> (&'a Media, &'a Media)
    ensures up { result.0.now ≡ uplink origin offer.now answer.now }
    ensures down { result.1.now ≡ downlink origin offer.now answer.now }
{
    if origin == 0 {
        (offer, answer)
    } else {
        (answer, offer)
    }
}

// Whether either port is 0.
#[tactic(auto, unfolding(crate::specs::StatusTable::port_of, flow::specs::Status::is_removed))]
fn port_of(offer: &Media, answer: &Media) -> Port
    ensures { result ≡ port_of offer.now answer.now }
{
    if (offer.port == 0) | (answer.port == 0) {
        Port::Zero
    } else {
        Port::NotZero
    }
}

// A direction counts as itself; a number that no text gives, as recvonly.
#[tactic(auto, unfolding(crate::specs::StatusTable::counts_as))]
fn counts_as(direction: u16) -> Direction
    ensures { result ≡ counts_as direction }
{
    Direction::try_from(direction).unwrap_or(Direction::Recvonly)
}

// By the table, where a text of this direction decides: the handset's is the uplink SDP (NOTE 8).
#[tactic(auto, using(crate::proofs::Answers::uplink_asked, crate::proofs::Answers::downlink_asked))]
fn by_text(port: Port, direction: u16, handset: bool) -> Status
    ensures { status_by rows (case_by port direction handset) ≡ Some result }
{
    let direction = counts_as(direction);
    if handset {
        status_table::status_by(Case {
            port,
            direction,
            sdp: Sdp::Uplink,
        })
    } else {
        status_table::status_by(Case {
            port,
            direction,
            sdp: Sdp::Downlink,
        })
    }
}

// First which text decides (NOTE 5): the answer, but for an inactive offer. Then the table.
pub fn status_of(origin: u64, offer: &Media, answer: &Media) -> Status
    ensures { status_number result ≡ status origin offer.now answer.now }
{
    let port = port_of(offer, answer);
    if offer.direction == u16::from(Direction::Inactive) {
        return by_text(port, offer.direction, origin == 0);
    }
    by_text(port, answer.direction, origin != 0)
}
