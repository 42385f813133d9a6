// Where the packets of a component's flows go.
ghost use Rattle.std.specs.Prelude.{◌≡◌};
ghost use Rattle.flow.specs.Described.{destination, media_to, rtcp_to};

use flow::{Component, Destination, Destinations, Way};

// The address and, so much above, the port of a direction; zeros where the flow is not described in it.
#[tactic(auto, unfolding(flow::specs::Described::destination))]
fn to(described: bool, way: &Way, above: u32) -> Destination
    ensures { result ≡ destination described way.now above }
{
    if !described {
        return Destination::default();
    }
    Destination {
        address: u64::from(way.address),
        port: u64::from(way.port) + u64::from(above),
    }
}

// Of the media flow.
#[tactic(auto, unfolding(flow::specs::Described::media_to))]
pub fn media_destinations(c: &Component) -> Destinations
    ensures { result ≡ media_to c.now }
{
    Destinations {
        up: to(c.up.is_described(), &c.up, 0),
        down: to(c.down.is_described(), &c.down, 0),
    }
}

// Of the RTCP flow: one port above.
#[tactic(auto, unfolding(flow::specs::Described::rtcp_to))]
pub fn rtcp_destinations(c: &Component) -> Destinations
    ensures { result ≡ rtcp_to c.now }
{
    let exists = c.has_rtcp();
    Destinations {
        up: to(exists, &c.up, 1),
        down: to(exists, &c.down, 1),
    }
}
