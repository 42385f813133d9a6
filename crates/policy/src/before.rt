// What deriving reads of what a session held before an exchange.
ghost use Rattle.std.specs.Prelude.{◌≡◌};
ghost use Rattle.flow.specs.Before.{was_of, before_of};

use flow::{Before, Component, Held, Was};

// A component as it was; of a removed one no direction is described.
fn was_of(c: &Component) -> Was
    ensures { result ≡ was_of c.now }
{
    let live = c.is_live();
    Was {
        kind: c.kind,
        live: u16::from(live),
        up: u16::from(live & c.up.is_described()),
        down: u16::from(live & c.down.is_described()),
    }
}

// The kept class, and the components up to the count.
pub fn before_of(held: &Held) -> Before
    ensures { result ≡ before_of held.now }
{
    let mut components = [Was::default(); 8];
    for (j, c) in held.used().iter().enumerate() {
        components[j] = was_of(c);
    }
    Before {
        kept: held.kept,
        components,
    }
}
