// The authorised rates (table 6.3.1) and the two directions of a component.
ghost use Rattle.std.specs.Prelude.{◌≡◌, cond};
ghost use Rattle.flow.specs.Rates.{twentieth, present, media_rate, rtcp_rate, way_to};
ghost use Rattle.flow.specs.Session.{status_number};
ghost use Rattle.policy.specs.Steps.{when};

use flow::Way;
use flow::status::Status;
use sdp::{Bps, Media};

// Rounded up, so that RTCP is never short.
#[tactic(auto, using(crate::proofs::Rates::ceiling_is))]
fn twentieth_of(rate: u32) -> u64
    ensures { result ≡ twentieth rate }
{
    u64::from(rate).div_ceil(20)
}

// A figure of a text, if the text gives it.
fn figure(given: u8, n: u32) -> Option<u32>
    ensures { result ≡ when (present given) n }
{
    (given != 0).then_some(n)
}

// The media rate of a direction, the one requested by the text that packets of this direction go to.
#[tactic(auto, unfolding(flow::specs::Rates::media_rate, flow::specs::Rates::requested))]
fn media_rate(described: bool, text: &Media, default: u32) -> u32
    ensures { result ≡ media_rate described text.now default }
{
    if !described {
        return 0;
    }
    figure(text.requestedgiven, text.requested).unwrap_or(default)
}

// The RTCP rate of a direction, by the answer's RS and RR and the rate requested by the text that its packets go to.
fn rtcp_rate(answer: &Media, text: &Media, default: u32) -> Bps
    ensures { result ≡ rtcp_rate answer.now text.now default }
{
    let rs = figure(answer.rsgiven, answer.rs);
    let rr = figure(answer.rrgiven, answer.rr);
    if let Some((rs, rr)) = rs.zip(rr) {
        return Bps(u64::from(rs) + u64::from(rr));
    }
    let Some(requested) = figure(text.requestedgiven, text.requested) else {
        return Bps(u64::from(default));
    };
    let asked = rs.or(rr).unwrap_or(0);
    Bps(twentieth_of(requested).max(u64::from(asked)))
}

// One direction of a component, to the text that its packets go to, by the defaults for media and RTCP.
pub fn way_to(
    status: Status,
    transport: u16,
    described: bool,
    text: &Media,
    answer: &Media,
    media: u32,
    rtcp: u32,
) -> Way
    ensures { result ≡ way_to (status_number status) transport described text.now answer.now media rtcp }
{
    match status {
        Status::Removed => Way::default(),
        _ => Way {
            rtcp: if flow::has_rtcp(status.into(), transport) {
                rtcp_rate(answer, text, rtcp)
            } else {
                Bps(0)
            },
            address: text.address,
            media: media_rate(described, text, media),
            port: u32::from(text.port),
            described: u32::from(described),
        },
    }
}
