// The three programmes: O for trains that brake well, M, and U for those that brake badly.
#[derive(Clone, Copy, Debug, PartialEq, Eq)]
pub enum Programme {
    O,
    M,
    U,
}
