// Worked values of odometers and brakes, the edges of their bounds, and a buyer's own of each.
#![tactic(auto)]

#[cfg(test)]
mod brakes;
#[cfg(test)]
mod open_kind;
#[cfg(test)]
mod own;
#[cfg(test)]
mod readings;
#[cfg(test)]
mod telegrams;
#[cfg(test)]
mod wheels;
