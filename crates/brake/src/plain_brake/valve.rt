ghost use Rattle.std.specs.Prelude.{◌≡◌, false};
ghost use Rattle.brake.specs.Meaning.{Off};
ghost use Rattle.brake.specs.PlainBrake.{plain_facts};

use super::PlainBrake;
use crate::{Brake, Pressure, Refusal};

// A valve that vents the brake pipe: once applied it is settled when the pressure has fallen.
pub type Valve = PlainBrake<false>;

impl Valve {
    // A valve with neither fact. Its clause on the constant pins the alias to its kind.
    pub fn new() -> Valve
        ensures off { Off plain_facts result }
        ensures valve_waits_for_the_pressure { ⟦<Valve as Brake>⟧.SETTLES_AT_ONCE ≡ false }
    {
        PlainBrake::off()
    }
}

impl Brake for Valve {
    ghost meaning = { plain_facts };

    const SETTLES_AT_ONCE: bool = false;

    ghost SETTLES_AT_ONCE = { false };

    fn apply(&mut self) {
        self.put_on();
    }

    fn is_applied(&self) -> bool {
        self.applied
    }

    fn tell(&mut self, pressure: Pressure) {
        self.hear(pressure);
    }

    fn let_off(&mut self) -> Result<(), Refusal> {
        self.take_off()
    }

    fn is_settled(&self) -> bool {
        self.settled
    }
}
