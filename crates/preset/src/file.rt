ghost use Rattle.std.specs.Prelude.{◌≡◌, None};
ghost use Rattle.preset.specs.Entries.{first_refusal};

use crate::entries::Entries;
use crate::{Preset, PresetList, PresetNumber};

mod reading;

pub use reading::read;

// The bytes of a file that is accepted: only `read` makes one. Clauses name the field: it can be copied, and a `Model` of that kind would have to
// get the reference back from the bytes.
#[derive(Clone, Copy)]
pub struct PresetFile<'a> {
    bytes: &'a [u8],
    ghost accepted: { first_refusal bytes.now ≡ None },
}

impl<'a> PresetFile<'a> {
    ghost use Rattle.preset.specs.Calls.{Finds, Hands, Lists};
    ghost use Rattle.preset.specs.Presets.{listed};
    ghost use Rattle.preset.specs.Walk.{Begins};

    fn entries(&self) -> Entries<'a>
        ensures { Begins self.now.bytes.now result }
    {
        Entries::of(self.bytes)
    }

    // The presets, in order.
    pub fn presets(&self) -> PresetList
        ensures { Lists self.now.bytes.now (listed result) }
    {
        let mut presets = PresetList::empty();
        for entry in self.entries() {
            presets.push(entry.preset());
        }
        presets
    }

    // The preset of that number, or nothing where no entry has it.
    pub fn lookup(&self, number: PresetNumber) -> Option<Preset>
        ensures { Finds self.now.bytes.now number.value result }
    {
        // a `for`: in a chain of `find` and `map` nothing shows that the entry which was found keeps the rule
        for entry in self.entries() {
            if entry.number() == number {
                return Some(entry.preset());
            }
        }
        None
    }

    // The part of the file that holds the preset's name, or nothing where its place is not in this file.
    pub fn name(&self, preset: &Preset) -> Option<&'a [u8]>
        ensures { Hands self.now.bytes.now preset.now.name result }
    {
        preset.name.part_of(self.bytes)
    }
}
