ghost use Rattle.std.specs.Prelude.{◌≡◌, ◌+◌, ◌<◌, ◌≤◌, ◌∷◌, ◌++◌, length, take, drop};
ghost use Rattle.preset.specs.Calls.{ReadBack, Wrote};
ghost use Rattle.preset.specs.Format.{encoded, rows_bytes};
ghost use Rattle.preset.specs.Presets.{all_named, three_rows};
ghost use Rattle.preset.specs.Width.{entry_size, number_bytes, two_bytes};

use crate::draft::Draft;
use crate::layout::{HEADER_SIZE, VERSION, names_start, to_two_bytes};
use crate::{Preset, Refusal};

// Puts a part into the buffer, and says where it ends.
// By places: what `std` promises of a writer over `&mut [u8]` is the room that is left, and not the bytes that the buffer holds; and a struct
// round the `&mut` would only hold these two for two functions.
fn put(buffer: &mut [u8], at: usize, part: &[u8]) -> usize
    requires { at + length part.now ≤ length buffer.old }
    ensures end { result ≡ at + length part.now }
    ensures front { take result buffer.new ≡ take at buffer.old ++ part.now }
    ensures back { drop result buffer.new ≡ drop result buffer.old }
{
    let end = at + part.len();
    buffer[at..end].copy_from_slice(part);
    end
}

// Puts the entry of a preset whose name lies at `name_at`. Narrowing is by `as` here and below: the check shows that nothing is lost, and
// `try_from` with `unwrap` would say no more.
fn put_entry(buffer: &mut [u8], at: usize, preset: &Preset, name_at: u16) -> usize
    requires room { at + entry_size ≤ length buffer.old }
    requires short { preset.now.name.length ≤ 24 }
    ensures end { result ≡ at + entry_size }
    ensures front { take result buffer.new ≡ take at buffer.old ++ (number_bytes preset.now.number.value ++ (two_bytes name_at ++ (preset.now.name.length ∷ rows_bytes (three_rows preset.now.rows)))) }
    ensures back { drop result buffer.new ≡ drop result buffer.old }
{
    let [high, low] = to_two_bytes(name_at);
    // each place is named by what comes there
    let name = put(buffer, at, &preset.number.bytes());
    let rows = put(buffer, name, &[high, low, preset.name.length as u8]);
    let m = put(buffer, rows, &preset.rows.o.numbers());
    let u = put(buffer, m, &preset.rows.m.numbers());
    put(buffer, u, &preset.rows.u.numbers())
}

// Puts the whole file.
fn put_all(draft: &Draft, buffer: &mut [u8])
    requires { draft.now.extent ≤ length buffer.old }
    ensures { buffer.new ≡ encoded (all_named draft.now.text.now draft.now.presets.now) ++ drop draft.now.extent buffer.old }
{
    let [high, low] = to_two_bytes(draft.extent as u16);
    let count = draft.presets.len() as u8;
    let mut at = put(
        buffer,
        0,
        &[VERSION, count, 0, HEADER_SIZE as u8, high, low],
    );
    let mut name_at = names_start(draft.presets.len());
    for preset in draft.presets {
        at = put_entry(buffer, at, preset, name_at as u16);
        name_at += preset.name.length;
    }
    for named in draft.presets {
        at = put(buffer, at, named.name.part_of(draft.text).unwrap());
    }
}

// Writes the presets, with their names out of the text, into the front of the buffer, and answers the file's length.
pub fn write(presets: &[Preset], text: &[u8], buffer: &mut [u8]) -> Result<usize, Refusal>
    ensures answer { Wrote presets.now text.now buffer.old buffer.new result }
    ensures read_back { ReadBack presets.now text.now buffer.new result }
{
    let draft = Draft::of(presets, text)?;
    if draft.extent > buffer.len() {
        return Err(Refusal::Room);
    }
    put_all(&draft, buffer);
    Ok(draft.extent)
}
