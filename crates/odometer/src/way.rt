ghost use Rattle.std.specs.Prelude.{◌≡◌, ◌≤◌, false};
ghost use Rattle.odometer.specs.Meaning.{in_millimetres};
ghost use Rattle.odometer.specs.Way.{outcome, too_far};

use crate::Fault;

// A way from where an odometer began to count, in millimetres; no other length is one. Its range is no invariant of it: a way beyond that is reckoned before it is refused.
#[derive(Clone, Copy, PartialEq, Eq, PartialOrd, Ord, Debug)]
pub struct Way {
    pub millimetres: u64,
}

impl Way {
    // The longest way: a million kilometres.
    const MOST: Way = Way {
        millimetres: 1_000_000_000_000,
    };
    // The longest move of one reading, in millimetres. It is no `Way`, since it is not counted from the beginning.
    const MOVE_MOST: u64 = 200_000;

    // The way that a reading leads to from the one before, or why it is not taken.
    pub(crate) fn reached_from(self, before: Way) -> Result<Way, Fault>
        requires { before.millimetres ≤ self.millimetres }
        ensures { in_millimetres result ≡ outcome false (too_far before.millimetres self.millimetres) self.millimetres }
    {
        if self.millimetres - before.millimetres > Way::MOVE_MOST {
            return Err(Fault::TooFar);
        }
        if self > Way::MOST {
            return Err(Fault::BeyondRange);
        }
        Ok(self)
    }
}
