// The direction that an `a=` line says, and its number in a description.
ghost use Rattle.std.specs.Prelude.{◌≡◌};
ghost use Rattle.sdp.specs.Direction.{direction_number, NamesDirection};

use crate::Unnamed;

#[derive(Clone, Copy, PartialEq, Eq)]
pub enum Direction {
    Sendrecv,
    Sendonly,
    Recvonly,
    Inactive,
}

impl From<Direction> for u16 {
    ghost from_gives = { λ direction n. n ≡ direction_number direction };

    fn from(direction: Direction) -> u16 {
        match direction {
            Direction::Sendrecv => 1,
            Direction::Sendonly => 2,
            Direction::Recvonly => 3,
            Direction::Inactive => 4,
        }
    }
}

impl TryFrom<u16> for Direction {
    type Error = Unnamed;

    ghost try_from_gives = { NamesDirection };

    fn try_from(n: u16) -> Result<Self, Unnamed> {
        match n {
            1 => Ok(Direction::Sendrecv),
            2 => Ok(Direction::Sendonly),
            3 => Ok(Direction::Recvonly),
            4 => Ok(Direction::Inactive),
            _ => Err(Unnamed(n)),
        }
    }
}
