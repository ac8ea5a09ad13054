// Brakes: applied, settled and let off, by a meaning that a set can be proved over.
#![tactic(auto)]

mod brake;
mod plain_brake;
mod pressure;
mod refusal;
mod rehearsal;

pub use brake::Brake;
pub use plain_brake::{BrakeLoop, PlainBrake, Valve};
pub use pressure::Pressure;
pub use refusal::Refusal;
pub use rehearsal::rehearse;
