ghost use Rattle.std.specs.Prelude.{◌≡◌, ◌≤◌};
ghost use Rattle.preset.specs.Format.{base};
ghost use Rattle.preset.specs.Width.{two, two_bytes};

// What a file's version settles.
pub(crate) const VERSION: u8 = 1;
// How many bytes of an entry hold the preset's number.
pub(crate) const NUMBER_WIDTH: usize = 1;
// The number, the name's offset (two bytes), its length (one) and three rows of seven.
pub(crate) const ENTRY_SIZE: usize = NUMBER_WIDTH + 24;
// Version, count, the entries' offset and the file's length.
pub(crate) const HEADER_SIZE: usize = 6;
// The most presets that a file can hold.
pub(crate) const COUNT_MOST: u8 = 32;

// A number of two bytes.
pub(crate) fn from_two_bytes(high: u8, low: u8) -> usize
    ensures { result ≡ two high low }
{
    usize::from(u16::from_be_bytes([high, low]))
}

pub(crate) fn to_two_bytes(number: u16) -> [u8; 2]
    ensures { result ≡ two_bytes number }
{
    number.to_be_bytes()
}

// Where the names of so many presets begin.
pub(crate) fn names_start(count: usize) -> usize
    requires { count ≤ 255 }
    ensures { result ≡ base count }
{
    HEADER_SIZE + ENTRY_SIZE * count
}
