// What is wrong with a line: 3 to 8 of 01's table of refusal numbers.
ghost use Rattle.std.specs.Prelude.{◌≡◌};
ghost use Rattle.sdp.specs.Fault.{fault_number};

#[derive(Clone, Copy, PartialEq, Eq)]
pub enum Fault {
    MediaLine,
    Transport,
    Ninth,
    Connection,
    Bandwidth,
    Direction,
}

impl From<Fault> for u16 {
    ghost from_gives = { λ fault n. n ≡ fault_number fault };

    fn from(fault: Fault) -> u16 {
        match fault {
            Fault::MediaLine => 3,
            Fault::Transport => 4,
            Fault::Ninth => 5,
            Fault::Connection => 6,
            Fault::Bandwidth => 7,
            Fault::Direction => 8,
        }
    }
}
