ghost use Rattle.std.specs.Prelude.{◌≡◌};
ghost use Rattle.odometer.specs.Faults.{fault_layer, fault_number};

// Why a reading is not taken.
#[derive(Clone, Copy, PartialEq, Eq, Debug)]
pub enum Fault {
    // a move that is too far, or more pulses than a reading can have
    TooFar,
    // a place below the last
    Backwards,
    // a way beyond its range
    BeyondRange,
}

impl Fault {
    // The number by which the fault is known.
    pub fn number(self) -> u8
        ensures { result ≡ fault_number self }
    {
        match self {
            Fault::TooFar => 15,
            Fault::Backwards => 16,
            Fault::BeyondRange => 17,
        }
    }

    // The layer that it comes from.
    pub fn layer(self) -> &'static str
        ensures { result.now ≡ fault_layer self }
    {
        crate::LAYER
    }
}
