ghost use Rattle.std.specs.Prelude.{◌≡◌, true};
ghost use Rattle.brake.specs.Meaning.{Off};
ghost use Rattle.brake.specs.PlainBrake.{plain_facts};

use super::PlainBrake;
use crate::{Brake, Pressure, Refusal};

// A brake loop that is opened: once applied it is settled at once.
pub type BrakeLoop = PlainBrake<true>;

impl BrakeLoop {
    // A loop with neither fact. Its clause on the constant pins the alias to its kind.
    pub fn new() -> BrakeLoop
        ensures off { Off plain_facts result }
        ensures loop_settles_at_once { ⟦<BrakeLoop as Brake>⟧.SETTLES_AT_ONCE ≡ true }
    {
        PlainBrake::off()
    }
}

impl Brake for BrakeLoop {
    ghost meaning = { plain_facts };

    const SETTLES_AT_ONCE: bool = true;

    ghost SETTLES_AT_ONCE = { true };

    fn apply(&mut self) {
        self.put_on();
    }

    fn is_applied(&self) -> bool {
        self.applied
    }

    fn tell(&mut self, pressure: Pressure) {
        self.hear(pressure);
    }

    fn let_off(&mut self) -> Result<(), Refusal> {
        self.take_off()
    }

    fn is_settled(&self) -> bool {
        self.settled
    }
}
