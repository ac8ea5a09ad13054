// What an odometer is made with and what it reads, each a type of its own with its unit, so that none is taken for another.

// How far a wheel rolls in one turn.
#[derive(Clone, Copy, PartialEq, Eq, PartialOrd, Ord, Debug)]
pub struct Circumference {
    pub millimetres: u32,
}

// Pulses of a wheel.
#[derive(Clone, Copy, PartialEq, Eq, PartialOrd, Ord, Debug)]
pub struct Pulses {
    pub count: u32,
}

// A place on the line.
#[derive(Clone, Copy, PartialEq, Eq, PartialOrd, Ord, Debug)]
pub struct Place {
    pub decimetres: u32,
}
