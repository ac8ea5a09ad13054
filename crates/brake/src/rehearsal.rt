ghost use Rattle.brake.specs.Rehearsal.{Rehearses};

use crate::{Brake, Pressure, Refusal};

// Applies the brake, tells it the pressures in turn, and lets it off.
pub fn rehearse<B: Brake>(brake: &mut B, told: &[Pressure]) -> Result<(), Refusal>
    ensures { Rehearses B.meaning B.SETTLES_AT_ONCE told.now result brake.new }
{
    brake.apply();
    for &pressure in told {
        brake.tell(pressure);
    }
    brake.let_off()
}
