ghost use Rattle.std.specs.Prelude.{◌≡◌};
ghost use Rattle.brake.specs.Refusals.{refusal_layer, refusal_number};

// Why a brake is not let off. Its number and layer are its own: crates of one level know nothing of one another.
#[derive(Clone, Copy, PartialEq, Eq, Debug)]
pub enum Refusal {
    // it is not settled
    NotSettled,
}

impl Refusal {
    // The number by which the refusal is known.
    pub fn number(self) -> u8
        ensures { result ≡ refusal_number self }
    {
        match self {
            Refusal::NotSettled => 24,
        }
    }

    // The layer that refuses.
    pub fn layer(self) -> &'static str
        ensures { result.now ≡ refusal_layer self }
    {
        "brake"
    }
}
