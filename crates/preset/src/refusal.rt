ghost use Rattle.std.specs.Prelude.{◌≡◌};
ghost use Rattle.preset.specs.Refusals.{refusal_entry, refusal_layer, refusal_number};

// Why a preset file, a row or a list of presets is refused. Entries are counted from 1; a row that is made alone has entry 0.
// Number, entry and layer are its own: crates of one level know nothing of one another.
#[derive(Clone, Copy, PartialEq, Eq, Debug)]
pub enum Refusal {
    // under 6 bytes, or another length than the file says
    Length,
    // a version that is not known
    Version,
    // the count, the entries' offset, or entries past the end
    Count,
    // a preset number that is 0 or does not rise
    Number(u8),
    // a name's length, bytes or place, or bytes left over
    Name(u8),
    // a row that breaks its rule
    Rows(u8),
    // a buffer that is too short to write
    Room,
}

impl Refusal {
    // The number by which the refusal is known.
    pub fn number(self) -> u8
        ensures { result ≡ refusal_number self }
    {
        match self {
            Refusal::Length => 1,
            Refusal::Version => 2,
            Refusal::Count => 3,
            Refusal::Number(_) => 4,
            Refusal::Name(_) => 5,
            Refusal::Rows(_) => 6,
            Refusal::Room => 7,
        }
    }

    // The entry that is refused, where it is one entry.
    pub fn entry(self) -> Option<u8>
        ensures { result ≡ refusal_entry self }
    {
        match self {
            Refusal::Number(entry) | Refusal::Name(entry) | Refusal::Rows(entry) => Some(entry),
            Refusal::Length | Refusal::Version | Refusal::Count | Refusal::Room => None,
        }
    }

    // The layer that refuses.
    pub fn layer(self) -> &'static str
        ensures { result.now ≡ refusal_layer self }
    {
        "file"
    }
}
