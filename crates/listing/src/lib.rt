// The report that the program `presets` prints.
#![tactic(auto)]

mod lines;
mod text;

pub use text::report;
