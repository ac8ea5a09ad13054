// The units of preset rows, each a type of its own, so that no speed is taken for a time.

// Whole kilometres an hour.
#[derive(Clone, Copy, Debug, PartialEq, Eq, PartialOrd, Ord)]
pub struct Kmh {
    pub value: u8,
}

// Whole seconds.
#[derive(Clone, Copy, Debug, PartialEq, Eq, PartialOrd, Ord)]
pub struct Seconds {
    pub value: u8,
}
