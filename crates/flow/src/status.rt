// The status of a component, and its number (TS 29.214, Flow-Status).
ghost use Rattle.std.specs.Prelude.{◌≡◌, ◌<◌, MatchResult};
ghost use Rattle.flow.specs.Session.{status_number, removed};

#[derive(Clone, Copy, PartialEq, Eq)]
pub enum Status {
    EnabledUplink,
    EnabledDownlink,
    Enabled,
    Disabled,
    Removed,
}

// A number that is none of a status.
#[derive(Clone, Copy)]
pub struct UnknownStatus(pub u16);

impl From<Status> for u16 {
    ghost from_gives = { λ status number. number ≡ status_number status };

    fn from(status: Status) -> u16 {
        match status {
            Status::EnabledUplink => 0,
            Status::EnabledDownlink => 1,
            Status::Enabled => 2,
            Status::Disabled => 3,
            Status::Removed => 4,
        }
    }
}

impl TryFrom<u16> for Status {
    type Error = UnknownStatus;

    ghost try_from_gives = { λ number r. MatchResult r (λ status. status_number status ≡ number) (λ unknown. (unknown.0 ≡ number) × (removed < number)) };

    fn try_from(number: u16) -> Result<Status, UnknownStatus> {
        match number {
            0 => Ok(Status::EnabledUplink),
            1 => Ok(Status::EnabledDownlink),
            2 => Ok(Status::Enabled),
            3 => Ok(Status::Disabled),
            4 => Ok(Status::Removed),
            _ => Err(UnknownStatus(number)),
        }
    }
}
