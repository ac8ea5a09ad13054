ghost use Rattle.std.specs.Prelude.{◌≡◌};
ghost use Rattle.preset.specs.Calls.{Hands};
ghost use Rattle.preset.specs.Rule.{row_of};
ghost use Rattle.preset.specs.Presets.{row_numbers, three_rows};

use crate::{PresetNumber, Programme, Row};

// A place in a text: where it begins and how many bytes it has.
#[derive(Clone, Copy, Debug, PartialEq, Eq)]
pub struct Place {
    pub offset: usize,
    pub length: usize,
}

impl Place {
    // The part of the text that lies there, or nothing where the place is not in it.
    pub(crate) fn part_of(self, text: &[u8]) -> Option<&[u8]>
        ensures { Hands text.now self result }
    {
        let end = self.offset.checked_add(self.length)?;
        text.get(self.offset..end)
    }
}

// A row for each programme.
#[derive(Clone, Copy, Debug, PartialEq, Eq)]
pub struct Rows {
    pub o: Row,
    pub m: Row,
    pub u: Row,
}

// A preset, a plain value. Its name is a place in a text that is kept beside it: the file that it was read from, or the text that it is written
// with. The rules want the name handed out by a call of its own.
#[derive(Clone, Copy, Debug, PartialEq, Eq)]
pub struct Preset {
    pub number: PresetNumber,
    pub name: Place,
    pub rows: Rows,
}

impl Preset {
    // The row that the programme chooses.
    pub fn row(&self, programme: Programme) -> Row
        ensures { row_numbers result ≡ row_of (three_rows self.now.rows) programme }
    {
        match programme {
            Programme::O => self.rows.o,
            Programme::M => self.rows.m,
            Programme::U => self.rows.u,
        }
    }
}
