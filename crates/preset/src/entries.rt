ghost use Rattle.std.specs.Prelude.{◌+◌, ◌-◌, ◌*◌, ◌^◌, ◌<◌, ◌≤◌, length};
ghost use Rattle.preset.specs.Format.{base};

use crate::entry::Entry;
use crate::layout::{ENTRY_SIZE, HEADER_SIZE, names_start};
use std::ops::Range;

// The entries of a file, in order. It goes on behind a faulty one: a name that is too long ends with the file.
#[derive(Drop)]
pub(crate) struct Entries<'a> {
    // those that are left, counted from 0
    places: Range<u8>,
    // where the next name has to be
    name_at: usize,
    // the whole file: an entry's own bytes are taken for it alone, so that a look-up goes on by places
    file: &'a [u8],
    ghost few: { places.end ≤ 32 },
    ghost whole: { base places.end ≤ length file.now },
    ghost near: { name_at + 255 * (places.end - places.start) < 2 ^ 32 },
}

impl<'a> Entries<'a> {
    ghost use Rattle.preset.specs.Entries.{count_in};
    ghost use Rattle.preset.specs.Walk.{Begins};

    // All entries of a file.
    pub(crate) fn of(file: &'a [u8]) -> Entries<'a>
        requires few { count_in file.now ≤ 32 }
        requires room { base (count_in file.now) ≤ length file.now }
        ensures { Begins file.now result }
    {
        let count = file[1];
        let name_at = names_start(usize::from(count));
        Entries {
            places: 0..count,
            name_at,
            file,
        }
    }
}

impl<'a> Iterator for Entries<'a> {
    ghost use Rattle.std.specs.Iterator.{at_most};
    ghost use Rattle.preset.specs.Walk.{Goes};

    type Item = Entry<'a>;

    ghost next_gives = { Goes };

    ghost remaining = { λ s. at_most (s.places.end - s.places.start) };

    fn next(&mut self) -> Option<Entry<'a>> {
        let place = self.places.next()?;
        let entry = Entry {
            ordinal: place + 1,
            bytes: &self.file[HEADER_SIZE + ENTRY_SIZE * usize::from(place)..],
            names: &self.file[self.name_at.min(self.file.len())..],
            name_at: self.name_at,
        };
        self.name_at += entry.name_length();
        Some(entry)
    }
}
