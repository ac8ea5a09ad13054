// Preset rows, presets and preset files: read, looked up and written.
#![tactic(auto)]

mod draft;
mod entries;
mod entry;
mod file;
mod layout;
mod list;
mod name;
mod number;
mod preset;
mod programme;
mod refusal;
mod row;
mod standard;
mod units;
mod writing;

pub use file::{PresetFile, read};
pub use list::PresetList;
pub use number::PresetNumber;
pub use preset::{Place, Preset, Rows};
pub use programme::Programme;
pub use refusal::Refusal;
pub use row::{Row, RowFields};
pub use units::{Kmh, Seconds};
pub use writing::write;
