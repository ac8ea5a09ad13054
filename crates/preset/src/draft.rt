ghost use Rattle.std.specs.Prelude.{◌≡◌, ◌<◌, ◌≤◌, All, length};
ghost use Rattle.preset.specs.Format.{total};
ghost use Rattle.preset.specs.Presets.{all_named};
ghost use Rattle.preset.specs.Steps.{Admits, Lies};

use crate::layout::{COUNT_MOST, names_start};
use crate::name::is_name;
use crate::{Preset, PresetNumber, Refusal};

// Presets that a file can hold, with the text that their names lie in.
#[derive(Clone, Copy)]
pub(crate) struct Draft<'a> {
    pub(crate) presets: &'a [Preset],
    pub(crate) text: &'a [u8],
    // how long the file is
    pub(crate) extent: usize,
    ghost few: { length presets.now ≤ 32 },
    ghost within: { All (Lies text.now) presets.now },
    ghost measured: { extent ≡ total (all_named text.now presets.now) },
    ghost short: { extent < 65536 },
}

// Refuses the preset k that is to be written, where it does not follow one of the number `last`. What is checked in a file are bytes, and here
// fields: the two share what a name is.
fn check(preset: &Preset, text: &[u8], k: u8, last: PresetNumber) -> Result<(), Refusal>
    ensures { Admits k last.value text.now preset.now result }
{
    if !preset.number.rises_above(last) {
        return Err(Refusal::Number(k));
    }
    match preset.name.part_of(text) {
        Some(name) if is_name(name) => Ok(()),
        _ => Err(Refusal::Name(k)),
    }
}

impl<'a> Draft<'a> {
    ghost use Rattle.preset.specs.Drafts.{Drafts};

    // Refuses presets that no file can hold.
    pub(crate) fn of(presets: &'a [Preset], text: &'a [u8]) -> Result<Draft<'a>, Refusal>
        ensures { Drafts presets.now text.now result }
    {
        if presets.is_empty() || presets.len() > usize::from(COUNT_MOST) {
            return Err(Refusal::Count);
        }
        let mut last = PresetNumber::NONE;
        let mut extent = names_start(presets.len());
        // by `as`: there are 32 at the most, and `try_from` with `unwrap` would say no more
        for (i, preset) in presets.iter().enumerate() {
            check(preset, text, i as u8 + 1, last)?;
            last = preset.number;
            extent += preset.name.length;
        }
        Ok(Draft {
            presets,
            text,
            extent,
        })
    }
}
