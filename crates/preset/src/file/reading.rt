ghost use Rattle.std.specs.Prelude.{◌≡◌, ◌≤◌, length};
ghost use Rattle.preset.specs.Calls.{OfValidList, Reads};
ghost use Rattle.preset.specs.Entries.{count_in, entries_refusal, first_refusal};
ghost use Rattle.preset.specs.Format.{base};
ghost use Rattle.preset.specs.Steps.{unless_refused};

use super::PresetFile;
use crate::entries::Entries;
use crate::layout::{COUNT_MOST, HEADER_SIZE, VERSION, from_two_bytes, names_start};
use crate::{PresetNumber, Refusal};

// Refuses the entries, or bytes behind the last name, which count as the last entry's.
fn check_entries(bytes: &[u8]) -> Result<(), Refusal>
    requires few { count_in bytes.now ≤ 32 }
    requires room { base (count_in bytes.now) ≤ length bytes.now }
    ensures { result ≡ unless_refused (entries_refusal bytes.now) }
{
    let count = bytes[1];
    let mut last = PresetNumber::NONE;
    let mut end = names_start(usize::from(count));
    for entry in Entries::of(bytes) {
        entry.check(last)?;
        last = entry.number();
        end = entry.name_at + entry.name_length();
    }
    if end != bytes.len() {
        return Err(Refusal::Name(count));
    }
    Ok(())
}

// Refuses bytes that are no file: one pass over the header and the entries.
fn check(bytes: &[u8]) -> Result<(), Refusal>
    ensures { result ≡ unless_refused (first_refusal bytes.now) }
{
    if bytes.len() < HEADER_SIZE || from_two_bytes(bytes[4], bytes[5]) != bytes.len() {
        return Err(Refusal::Length);
    }
    if bytes[0] != VERSION {
        return Err(Refusal::Version);
    }
    let count = bytes[1];
    if count < 1
        || count > COUNT_MOST
        || from_two_bytes(bytes[2], bytes[3]) != HEADER_SIZE
        || names_start(usize::from(count)) > bytes.len()
    {
        return Err(Refusal::Count);
    }
    check_entries(bytes)
}

// Reads a file, or answers the first refusal.
pub fn read(bytes: &[u8]) -> Result<PresetFile<'_>, Refusal>
    ensures answer { Reads bytes.now result }
    ensures exactly_valid_lists { OfValidList bytes.now result }
{
    check(bytes)?;
    Ok(PresetFile { bytes })
}
