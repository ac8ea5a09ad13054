// Odometers: how far the train has come, by a meaning that a set can be proved over.
#![tactic(auto)]

mod fault;
mod odometer;
mod refusal;
mod telegram;
mod units;
mod way;
mod wheel;

pub use fault::Fault;
pub use odometer::Odometer;
pub use refusal::Refusal;
pub use telegram::Telegram;
pub use units::{Circumference, Place, Pulses};
pub use way::Way;
pub use wheel::Wheel;

// The layer of faults and refusals. Each enum has `number` and `layer` of its own: a trait for both would be one more name for callers to import.
const LAYER: &str = "odometer";
