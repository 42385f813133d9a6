// What a `b=` line of a media section says: AS, TIAS, RS or RR, in bit/s.
ghost use Rattle.std.specs.Prelude.{◌≡◌};
ghost use Rattle.sdp.specs.Bandwidth.{in_bits};

use crate::Bps;

// Kilobits a second, as an AS line gives them.
#[derive(Clone, Copy)]
pub struct Kbit(pub u32);

impl Kbit {
    // Kilobit figures are turned to bit/s here, once.
    pub fn bits(self) -> Bps
        ensures { result.0 ≡ in_bits self.0 }
    {
        Bps(u64::from(self.0) * 1000)
    }
}

#[derive(Clone, Copy)]
pub enum Rate {
    As(u32),
    Tias(u32),
    Rs(u32),
    Rr(u32),
    Other,
}
