// The fit of an answer to an offer: refusal 15.
ghost use Rattle.std.specs.Prelude.{◌≡◌};
ghost use Rattle.flow.specs.Fit.{said, misfits, fit_of};
ghost use Rattle.rules.specs.Steps.{fit_by};

use flow::{Descriptions, Fit};
use sdp::{Media, Text};

// What a text says of its media, without where it says it.
pub fn said_in(t: &Text) -> Descriptions
    ensures { result ≡ said t.now }
{
    Descriptions {
        count: t.count,
        media: t.media,
    }
}

#[tactic(auto, unfolding(flow::specs::Fit::misfits))]
fn is_misfit(offer: &Media, answer: &Media) -> bool
    ensures { result ≡ misfits offer.now answer.now }
{
    (offer.kind != answer.kind)
        | ((offer.transport != answer.transport) | ((offer.port == 0) & (answer.port != 0)))
}

// The lowest component that misfits, 0 where the counts differ; or `None`, where the answer fits.
pub fn misfit(offer: &Descriptions, answer: &Descriptions) -> Option<u64>
    ensures { fit_by result ≡ fit_of offer.now answer.now }
{
    if offer.count != answer.count {
        return Some(0);
    }
    for (j, offered) in offer.used().iter().enumerate() {
        if is_misfit(offered, &answer.media[j]) {
            return Some(j as u64 + 1);
        }
    }
    None
}

// 15 at the misfit, or 0 and 0.
pub fn fit(offer: &Descriptions, answer: &Descriptions) -> Fit
    ensures { result ≡ fit_of offer.now answer.now }
{
    match misfit(offer, answer) {
        Some(place) => Fit { refusal: 15, place },
        None => Fit::default(),
    }
}
