ghost use Rattle.std.specs.Prelude.{◌≡◌, ◌≤◌, length, nat_lt};
ghost use Rattle.preset.specs.Width.{number_bytes, number_of, number_width};

use crate::layout::NUMBER_WIDTH;

// A preset's number, as wide as an entry holds it. A number of 0 is no preset's: the writer refuses it.
#[derive(Clone, Copy, Debug, PartialEq, Eq, PartialOrd, Ord)]
pub struct PresetNumber {
    pub value: u8,
}

impl PresetNumber {
    // What the first number of a file has to be above. No `Option`: so the one comparison refuses 0 as it does a number that does not rise.
    pub(crate) const NONE: PresetNumber = PresetNumber { value: 0 };

    // The number that an entry begins with.
    pub(crate) fn read(entry: &[u8]) -> PresetNumber
        requires { number_width ≤ length entry.now }
        ensures { result.value ≡ number_of entry.now }
    {
        PresetNumber { value: entry[0] }
    }

    // Whether the number comes behind `last` in a file.
    pub(crate) fn rises_above(self, last: PresetNumber) -> bool
        ensures { result ≡ nat_lt last.value self.value }
    {
        self > last
    }

    pub(crate) fn bytes(self) -> [u8; NUMBER_WIDTH]
        ensures { result ≡ number_bytes self.value }
    {
        [self.value]
    }
}
