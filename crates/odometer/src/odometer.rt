ghost use Rattle.std.specs.Prelude.{◌≡◌};
ghost use Rattle.odometer.specs.Meaning.{InRange, MovesALittle, OdometerMeaning, Takes};

use crate::{Fault, Way};

// Says how far the train has come. It means a way, and for each reading either a fault or the way after it.
pub trait Odometer {
    // What the odometer is read by. A call that is refused lets its reading go, and the language lets go only what is `Drop`.
    type Reading: Drop;

    ghost meaning: { OdometerMeaning Self Self.Reading };

    // Takes a reading: answers the way after it, which the odometer then means, or its fault, which alters nothing.
    fn take(&mut self, reading: Self::Reading) -> Result<Way, Fault>
        ensures { Takes meaning self.old reading result self.new };

    // The way.
    fn way(&self) -> Way
        ensures { result.millimetres ≡ meaning.way self.now };

    ghost bounded: { (o : Self) → InRange (meaning.way o) };

    ghost moves: { (o : Self) (r : Self.Reading) → MovesALittle (meaning.way o) (meaning.reads o r) };
}
