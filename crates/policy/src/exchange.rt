// Deriving what a session holds from its completed offer and answer.
ghost use Rattle.std.specs.Prelude.{◌≡◌};
ghost use Rattle.flow.specs.Derive.{flows_of, derived};
ghost use Rattle.flow.specs.Session.{fresh_held};

use crate::class::Sight;
use crate::{class, described, rate, status};
use flow::status::Status;
use flow::{Before, Component, Descriptions, Held, Settings, Was};
use sdp::Media;

// What a session holds before its first exchange, and after a close: all zeros.
pub fn fresh() -> Held
    ensures { result ≡ fresh_held }
{
    Held {
        completed: 0,
        kept: 0,
        count: 0,
        components: [Component::default(); 8],
    }
}

// The flows of a component, from what it was and what the offer and the answer say of it; its class comes later.
fn flows_of(settings: &Settings, origin: u64, was: &Was, offer: &Media, answer: &Media) -> Component
    ensures { result ≡ flows_of settings.now origin was.now offer.now answer.now }
{
    let (uplink, downlink) = status::sides(origin, offer, answer);
    let status = status::status_of(origin, offer, answer);
    let both = described::stays_both(was, offer.kind);
    let up = described::is_described(Status::EnabledUplink, status, both);
    let down = described::is_described(Status::EnabledDownlink, status, both);
    let Settings { media, rtcp, .. } = settings;
    let transport = offer.transport;
    Component {
        kind: offer.kind,
        transport,
        status: status.into(),
        class: 0,
        up: rate::way_to(status, transport, up, downlink, answer, media.up, rtcp.up),
        down: rate::way_to(
            status, transport, down, uplink, answer, media.down, rtcp.down,
        ),
    }
}

// The components get their classes once all of them, and what the slots past the count held, have shown which class the session keeps.
pub fn derive(
    settings: &Settings,
    origin: u64,
    before: &Before,
    offer: &Descriptions,
    answer: &Descriptions,
) -> Held
    ensures { result ≡ derived settings.now origin before.now offer.now answer.now }
{
    let count = offer.used().len();
    let mut components = [Component::default(); 8];
    let mut sight = Sight::nothing();
    for (j, offered) in offer.used().iter().enumerate() {
        let was = &before.components[j];
        let now = flows_of(settings, origin, was, offered, &answer.media[j]);
        sight = sight.with(was, &now);
        components[j] = now;
    }
    for was in &before.components[count..] {
        sight = sight.with_unused(was);
    }
    let kept = sight.kept(before.kept);
    for c in &mut components[..count] {
        c.class = class::class_of(kept, c.status, c.kind);
    }
    Held {
        completed: 1,
        kept,
        count: count as u32,
        components,
    }
}
