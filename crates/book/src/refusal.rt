// Why a call is refused, and the answers that say so.
ghost use Rattle.std.specs.Prelude.{◌≡◌};
ghost use Rattle.book.specs.Calls.{refused_with, grants, wrote};
ghost use Rattle.book.specs.Refusing.{number_of};

use crate::Reply;
use flow::{Authorised, Rates};
use sdp::Bps;
use statement::Written;

// What is refused of a call whose text is good.
#[derive(Clone, Copy, Debug, PartialEq, Eq)]
pub enum Refusal {
    // Rows, session, origin or class.
    Argument = 10,
    OfferOpen = 11,
    NoneOpen = 12,
    NotCompleted = 13,
    FewerLines = 14,
    Misfit = 15,
    AbovePool = 16,
    OutOfRange = 19,
}

impl From<Refusal> for u64 {
    ghost from_gives = { λ refusal n. n ≡ number_of refusal };

    fn from(refusal: Refusal) -> u64 {
        refusal as u64
    }
}

// A refusal by its number, the call's or its text's, and its place.
#[derive(Clone, Copy, Debug, PartialEq, Eq)]
pub struct Refused {
    pub refusal: u64,
    pub place: u64,
}

impl From<Refusal> for Refused {
    ghost from_gives = { λ refusal refused. refused ≡ record { refusal = number_of refusal; place = 0 } };

    fn from(refusal: Refusal) -> Refused {
        Refused {
            refusal: refusal.into(),
            place: 0,
        }
    }
}

impl From<Refused> for Reply {
    ghost from_gives = { λ refused reply. reply ≡ refused_with refused.refusal refused.place };

    fn from(refused: Refused) -> Reply {
        Reply {
            refusal: refused.refusal,
            place: refused.place,
            ..Reply::ACCEPTED
        }
    }
}

impl From<Authorised> for Reply {
    ghost from_gives = { λ authorised reply. reply ≡ grants authorised };

    fn from(authorised: Authorised) -> Reply {
        Reply {
            refusal: authorised.refusal,
            class: authorised.class,
            granted: Rates {
                up: Bps(authorised.up),
                down: Bps(authorised.down),
            },
            ..Reply::ACCEPTED
        }
    }
}

impl From<Written> for Reply {
    ghost from_gives = { λ written reply. reply ≡ wrote written };

    fn from(written: Written) -> Reply {
        Reply {
            refusal: written.refusal,
            length: written.length,
            ..Reply::ACCEPTED
        }
    }
}
