ghost use Rattle.std.specs.Prelude.{◌≡◌, Bool};
ghost use Rattle.brake.specs.Applying.{Applies};
ghost use Rattle.brake.specs.LettingOff.{LetsOff, Tells};
ghost use Rattle.brake.specs.Meaning.{Facts};

use crate::{Pressure, Refusal};

// A brake that forces the train to stop. It means two facts: it is applied, and it is settled, so that it may be let off.
pub trait Brake {
    ghost meaning: { Facts Self };

    // Whether a brake of this kind is settled as soon as it is applied.
    const SETTLES_AT_ONCE: bool;

    ghost SETTLES_AT_ONCE: { Bool };

    // The constant, for callers that have a function to ask.
    fn settled_when_applied() -> bool
        ensures { result ≡ SETTLES_AT_ONCE }
    {
        Self::SETTLES_AT_ONCE
    }

    // What applying needs.

    fn apply(&mut self)
        ensures { Applies meaning SETTLES_AT_ONCE self.new };

    fn is_applied(&self) -> bool
        ensures { result ≡ meaning.applied self.now };

    // What letting off needs besides.

    // Tells the brake the pressure in the brake pipe.
    fn tell(&mut self, pressure: Pressure)
        ensures { Tells meaning pressure.hundredths self.old self.new };

    // Lets the brake off, or refuses while it is not settled.
    fn let_off(&mut self) -> Result<(), Refusal>
        ensures { LetsOff meaning self.old result self.new };

    fn is_settled(&self) -> bool
        ensures { result ≡ meaning.settled self.now };
}
