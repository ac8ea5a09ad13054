ghost use Rattle.std.specs.Prelude.{◌≤◌, length};
ghost use Rattle.preset.specs.Width.{entry_size};

use crate::layout::{NUMBER_WIDTH, from_two_bytes};
use crate::name::is_name;
use crate::{Place, Preset, PresetNumber, Refusal, Row, Rows};

// An entry of a file that is read, counted from 1.
#[derive(Clone, Copy)]
pub(crate) struct Entry<'a> {
    pub(crate) ordinal: u8,
    // the bytes from the entry on, and those from its name on
    pub(crate) bytes: &'a [u8],
    pub(crate) names: &'a [u8],
    // where the name has to be
    pub(crate) name_at: usize,
    ghost whole: { entry_size ≤ length bytes.now },
}

impl Entry<'_> {
    ghost use Rattle.std.specs.Prelude.{◌≡◌, ◌+◌, ◌<◌, true, drop, take};
    ghost use Rattle.preset.specs.Entries.{name_fits};
    ghost use Rattle.preset.specs.Rule.{rows_keep};
    ghost use Rattle.preset.specs.Steps.{ReadsRows, Says};
    ghost use Rattle.preset.specs.Walk.{Checks, claimed_by};
    ghost use Rattle.preset.specs.Width.{number_of, number_width, rows_of, size_of};

    pub(crate) fn number(&self) -> PresetNumber
        ensures { result.value ≡ number_of self.now.bytes.now }
    {
        PresetNumber::read(self.bytes)
    }

    pub(crate) fn name_length(&self) -> usize
        ensures length { result ≡ size_of self.now.bytes.now }
        ensures one_byte { result < 256 }
    {
        usize::from(self.bytes[NUMBER_WIDTH + 2])
    }

    // Whether the entry has its name where it has to be.
    fn is_placed(&self) -> bool
        ensures { result ≡ (claimed_by self.now).placed }
    {
        from_two_bytes(self.bytes[NUMBER_WIDTH], self.bytes[NUMBER_WIDTH + 1]) == self.name_at
            && self.name_length() <= self.names.len()
    }

    // Whether the entry has its name there, and it can be a name.
    fn has_name(&self) -> bool
        ensures { result ≡ name_fits (claimed_by self.now) }
    {
        self.is_placed() && is_name(&self.names[..self.name_length()])
    }

    // The bytes of a row, that far behind the number.
    fn row_bytes(&self, at: usize) -> &[u8; 7]
        requires { at ≤ 17 }
        ensures { result.now ≡ take 7 (drop (number_width + at) self.now.bytes.now) }
    {
        self.bytes[NUMBER_WIDTH + at..].first_chunk().unwrap()
    }

    // The rows, or the refusal of the first that breaks its rule.
    fn rows(&self) -> Result<Rows, Refusal>
        ensures { ReadsRows self.now.ordinal self.now.bytes.now result }
    {
        let o = Row::read(self.row_bytes(3), self.ordinal)?;
        let m = Row::read(self.row_bytes(10), self.ordinal)?;
        let u = Row::read(self.row_bytes(17), self.ordinal)?;
        Ok(Rows { o, m, u })
    }

    // Refuses an entry that does not follow one of the number `last`.
    pub(crate) fn check(&self, last: PresetNumber) -> Result<(), Refusal>
        ensures { Checks last.value self.now result }
    {
        if !self.number().rises_above(last) {
            return Err(Refusal::Number(self.ordinal));
        }
        if !self.has_name() {
            return Err(Refusal::Name(self.ordinal));
        }
        self.rows()?;
        Ok(())
    }

    // The preset of an entry that nothing is wrong with.
    pub(crate) fn preset(&self) -> Preset
        requires { rows_keep (rows_of self.now.bytes.now) ≡ true }
        ensures { Says self.now.name_at self.now.bytes.now result }
    {
        Preset {
            number: self.number(),
            name: Place {
                offset: self.name_at,
                length: self.name_length(),
            },
            rows: self.rows().unwrap(),
        }
    }
}
