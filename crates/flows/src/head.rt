// The head of an exchange: origin + 2 * mode.
ghost use Rattle.flows.specs.Head.{head_of};
ghost use Rattle.std.specs.Result.{result_ok};
ghost use Rattle.std.specs.Prelude.{◌≡◌};

// What an exchange starts from, and whether what it leaves is saved.
#[derive(Clone, Copy)]
pub enum Mode {
    GoOn,
    Fresh,
    FromSaved,
    FreshAndSave,
}

#[derive(Clone, Copy)]
pub struct Head {
    pub origin: u64,
    pub mode: Mode,
}

// A number that is no head.
#[derive(Clone, Copy)]
pub struct NoHead;

impl TryFrom<u64> for Head {
    type Error = NoHead;

    ghost try_from_gives = { λ n r. result_ok r ≡ head_of n };

    #[tactic(auto, unfolding(crate::specs::Head::head_of))]
    fn try_from(n: u64) -> Result<Head, NoHead> {
        let mode = match n / 2 {
            0 => Mode::GoOn,
            1 => Mode::Fresh,
            2 => Mode::FromSaved,
            3 => Mode::FreshAndSave,
            _ => return Err(NoHead),
        };
        Ok(Head {
            origin: n % 2,
            mode,
        })
    }
}
