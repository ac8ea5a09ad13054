ghost use Rattle.std.specs.Prelude.{◌≡◌};
ghost use Rattle.brake.specs.PlainBrake.{plain_facts};

use super::PlainBrake;

// The two questions, for callers that leave the kind open.
impl<const AT_ONCE: bool> PlainBrake<AT_ONCE> {
    pub fn is_on(&self) -> bool
        ensures { result ≡ plain_facts.applied self.now }
    {
        self.applied
    }

    pub fn has_settled(&self) -> bool
        ensures { result ≡ plain_facts.settled self.now }
    {
        self.settled
    }
}
