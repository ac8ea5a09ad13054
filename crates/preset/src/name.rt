ghost use Rattle.std.specs.Prelude.{◌≡◌};
ghost use Rattle.preset.specs.Names.{is_name, printable};

// The longest name.
const NAME_MOST: usize = 24;

fn all_printable(bytes: &[u8]) -> bool
    ensures { result ≡ printable bytes.now }
{
    bytes.iter().all(|b| (32..=126).contains(b))
}

// Whether the bytes can be a name: 1 to 24 of them, each printable.
pub(crate) fn is_name(bytes: &[u8]) -> bool
    ensures { result ≡ is_name bytes.now }
{
    (1..=NAME_MOST).contains(&bytes.len()) && all_printable(bytes)
}
