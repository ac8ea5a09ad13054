ghost use Rattle.std.specs.Prelude.{◌≡◌};
ghost use Rattle.odometer.specs.Faults.{refusal_layer, refusal_number};

// Why an odometer is not made.
#[derive(Clone, Copy, PartialEq, Eq, Debug)]
pub enum Refusal {
    // a wheel outside its limits
    WheelLimits,
}

impl Refusal {
    // The number by which the refusal is known.
    pub fn number(self) -> u8
        ensures { result ≡ refusal_number self }
    {
        match self {
            Refusal::WheelLimits => 25,
        }
    }

    // The layer that refuses.
    pub fn layer(self) -> &'static str
        ensures { result.now ≡ refusal_layer self }
    {
        crate::LAYER
    }
}
