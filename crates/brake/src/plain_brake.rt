ghost use Rattle.std.specs.Prelude.{◌≡◌, true, false};
ghost use Rattle.brake.specs.Applying.{Applies};
ghost use Rattle.brake.specs.LettingOff.{LetsOff, Tells};
ghost use Rattle.brake.specs.Meaning.{Off};
ghost use Rattle.brake.specs.PlainBrake.{plain_facts};

use crate::{Brake, Pressure, Refusal};

mod brake_loop;
mod questions;
mod valve;

pub use brake_loop::BrakeLoop;
pub use valve::Valve;

// A brake that holds its two facts and nothing else, of the kind that settles at once or of the kind that does not.
// Two bools: the rules speak of two facts, each with a question of its own.
#[derive(Debug, Drop)]
pub struct PlainBrake<const AT_ONCE: bool> {
    applied: bool,
    settled: bool,
}

// The one body of each call, which callers that leave the kind open have too, under these names. `new` and `Brake` stand in an `impl` of each kind:
// of one over the kind, no constant could stand in a constant or a pattern of a caller, and no function could be a function pointer.
impl<const AT_ONCE: bool> PlainBrake<AT_ONCE> {
    // A brake with neither fact. Its clauses on the two aliases pin each to its kind.
    pub fn off() -> Self
        ensures off { Off plain_facts result }
        ensures valve_waits_for_the_pressure { ⟦<Valve as Brake>⟧.SETTLES_AT_ONCE ≡ false }
        ensures loop_settles_at_once { ⟦<BrakeLoop as Brake>⟧.SETTLES_AT_ONCE ≡ true }
    {
        PlainBrake {
            applied: false,
            settled: false,
        }
    }

    pub fn put_on(&mut self)
        ensures { Applies plain_facts AT_ONCE self.new }
    {
        self.applied = true;
        self.settled = AT_ONCE;
    }

    pub fn hear(&mut self, pressure: Pressure)
        ensures { Tells plain_facts pressure.hundredths self.old self.new }
    {
        if self.applied && pressure < Pressure::SETTLING {
            self.settled = true;
        }
    }

    pub fn take_off(&mut self) -> Result<(), Refusal>
        ensures { LetsOff plain_facts self.old result self.new }
    {
        if !self.settled {
            return Err(Refusal::NotSettled);
        }
        *self = Self::off();
        Ok(())
    }
}
