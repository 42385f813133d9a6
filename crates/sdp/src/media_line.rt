// What an `m=` line says: media, port, transport, in the numbers of a description.
ghost use Rattle.std.specs.Prelude.{◌≡◌};
ghost use Rattle.sdp.specs.Media.{kind_number, NamesKind, transport_number, NamesTransport};

use crate::Unnamed;

#[derive(Clone, Copy, PartialEq, Eq)]
pub enum Kind {
    Audio,
    Video,
    Application,
    Data,
    Control,
    Other,
}

#[derive(Clone, Copy, PartialEq, Eq)]
pub enum Transport {
    Rtp,
    Udp,
}

#[derive(Clone, Copy)]
pub struct MediaLine {
    pub kind: u16,
    pub transport: u16,
    pub port: u16,
}

impl From<Kind> for u16 {
    ghost from_gives = { λ kind n. n ≡ kind_number kind };

    fn from(kind: Kind) -> u16 {
        match kind {
            Kind::Audio => 1,
            Kind::Video => 2,
            Kind::Application => 3,
            Kind::Data => 4,
            Kind::Control => 5,
            Kind::Other => 6,
        }
    }
}

impl TryFrom<u16> for Kind {
    type Error = Unnamed;

    ghost try_from_gives = { NamesKind };

    fn try_from(n: u16) -> Result<Self, Unnamed> {
        match n {
            1 => Ok(Kind::Audio),
            2 => Ok(Kind::Video),
            3 => Ok(Kind::Application),
            4 => Ok(Kind::Data),
            5 => Ok(Kind::Control),
            6 => Ok(Kind::Other),
            _ => Err(Unnamed(n)),
        }
    }
}

impl From<Transport> for u16 {
    ghost from_gives = { λ transport n. n ≡ transport_number transport };

    fn from(transport: Transport) -> u16 {
        match transport {
            Transport::Rtp => 1,
            Transport::Udp => 2,
        }
    }
}

impl TryFrom<u16> for Transport {
    type Error = Unnamed;

    ghost try_from_gives = { NamesTransport };

    fn try_from(n: u16) -> Result<Self, Unnamed> {
        match n {
            1 => Ok(Transport::Rtp),
            2 => Ok(Transport::Udp),
            _ => Err(Unnamed(n)),
        }
    }
}
