ghost use Rattle.std.specs.Prelude.{◌≡◌, ◌+◌, ◌^◌, ◌<◌, ◌≤◌, true};
ghost use Rattle.std.proofs.Common.{rules};
ghost use Rattle.odometer.specs.Meaning.{Takes};
ghost use Rattle.odometer.specs.Way.{way_most};
ghost use Rattle.odometer.specs.WheelWay.{wheel_limits, wheel_way};

use crate::{Circumference, Fault, Odometer, Pulses, Refusal, Way};

#[cfg(test)]
mod tests;

// Counts the pulses of a wheel. It holds all of them and not the way, so that the way is rounded once.
#[derive(Debug, Drop)]
pub struct Wheel {
    circumference: Circumference,
    // the pulses of one turn
    turn: Pulses,
    // all pulses of good readings
    pulses: u64,
    ghost limits: { wheel_limits circumference.millimetres turn.count ≡ true },
    ghost in_range: { wheel_way circumference.millimetres turn.count pulses ≤ way_most },
}

impl Wheel {
    ghost use Rattle.odometer.specs.Wheel.{MakesWheel, way_with};

    // The most pulses that a reading can have.
    const READING_MOST: Pulses = Pulses { count: 65_535 };

    // A wheel of that circumference and those pulses a turn, which has had no pulse yet, or a refusal where they are outside their limits.
    pub fn new(circumference: Circumference, turn: Pulses) -> Result<Wheel, Refusal>
        ensures { MakesWheel circumference turn result }
    {
        if !(1_500..=4_500).contains(&circumference.millimetres)
            || !(16..=256).contains(&turn.count)
        {
            return Err(Refusal::WheelLimits);
        }
        Ok(Wheel {
            circumference,
            turn,
            pulses: 0,
        })
    }

    // The way of so many pulses, few enough that the product fits.
    fn way_of(&self, pulses: u64) -> Way
        requires { pulses < 2 ^ 39 }
        ensures { result.millimetres ≡ way_with self.now pulses }
    {
        Way {
            millimetres: pulses * u64::from(self.circumference.millimetres)
                / u64::from(self.turn.count),
        }
    }

    // The way once so many more pulses have come.
    fn way_after(&self, more: Pulses) -> Way
        ensures { result.millimetres ≡ way_with self.now (self.now.pulses + more.count) }
    {
        let pulses = self.pulses + u64::from(more.count);
        self.way_of(pulses)
    }
}

impl Odometer for Wheel {
    ghost use Rattle.odometer.specs.Wheel.{AddsPulses, wheel_meaning};
    ghost use Rattle.odometer.specs.WheelSums.{way_rises};

    type Reading = Pulses;

    ghost meaning = { wheel_meaning };

    ghost bounded = { Prim.search rules };

    ghost moves = { Prim.search (rules, way_rises) };

    fn take(&mut self, reading: Pulses) -> Result<Way, Fault>
        ensures taken { Takes wheel_meaning self.old reading result self.new }
        ensures adds_its_pulses { AddsPulses self.old reading result self.new }
    {
        if reading > Wheel::READING_MOST {
            return Err(Fault::TooFar);
        }
        let way = self.way_after(reading).reached_from(self.way())?;
        self.pulses += u64::from(reading.count);
        Ok(way)
    }

    fn way(&self) -> Way {
        self.way_after(Pulses { count: 0 })
    }
}
