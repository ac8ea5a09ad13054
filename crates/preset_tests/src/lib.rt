// Worked values of the rules of presets, and the edges of their bounds.
#![tactic(auto)]

#[cfg(test)]
mod files;
#[cfg(test)]
mod report;
#[cfg(test)]
mod rows;
#[cfg(test)]
mod samples;
#[cfg(test)]
mod writes;
