ghost use Rattle.std.specs.Prelude.{◌≡◌, ◌≤◌, length};

use crate::Preset;

// The presets of a file in order, as many as a file can hold, with no heap.
// An array with its length beside it: no vector of the kit's is `Copy`, and a list of presets is. For the same reason it has no `Model`: one that
// can be copied has to get the unused slots back from the list.
#[derive(Clone, Copy)]
pub struct PresetList {
    slots: [Preset; 32],
    count: usize,
    ghost few: { count ≤ 32 },
    ghost whole: { length slots ≡ 32 },
}

impl PresetList {
    ghost use Rattle.std.specs.Prelude.{◌<◌, [], ◌∷◌, ◌++◌};
    ghost use Rattle.preset.specs.Presets.{listed};

    pub(crate) fn empty() -> PresetList
        ensures { listed result ≡ [] }
    {
        let unused = Preset::pzb90();
        PresetList {
            slots: [unused; 32],
            count: 0,
        }
    }

    pub(crate) fn push(&mut self, preset: Preset)
        requires { length (listed self.old) < 32 }
        ensures { listed self.new ≡ listed self.old ++ preset ∷ [] }
    {
        self.slots[self.count] = preset;
        self.count += 1;
    }

    // The presets in order.
    pub fn as_slice(&self) -> &[Preset]
        ensures { result.now ≡ listed self.now }
    {
        &self.slots[..self.count]
    }
}
