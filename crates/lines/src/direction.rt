// An `a=` line: a direction, or something else.
ghost use Rattle.std.specs.Prelude.{◌≡◌};
ghost use Rattle.sdp.specs.Direction.{direction_of};

use sdp::direction::Direction;

// The value of an `a=` line.
pub fn says(v: &[u8]) -> Option<Direction>
    ensures { result ≡ direction_of v.now }
{
    if cursor::same(v, b"sendrecv") {
        return Some(Direction::Sendrecv);
    }
    if cursor::same(v, b"sendonly") {
        return Some(Direction::Sendonly);
    }
    if cursor::same(v, b"recvonly") {
        return Some(Direction::Recvonly);
    }
    if cursor::same(v, b"inactive") {
        return Some(Direction::Inactive);
    }
    None
}
