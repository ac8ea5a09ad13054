ghost use Rattle.std.specs.Prelude.{◌≡◌, true, codes};
ghost use Rattle.preset.specs.Rule.{pzb90, rows_keep};
ghost use Rattle.preset.specs.Presets.{LiesIn, named};
ghost use Rattle.preset.specs.Standard.{standard};

use crate::{Place, Preset, PresetNumber, Row, Rows};

// The PZB 90 rows in the order O, M, U, each with its numbers in the file's order. All that uses PZB 90 takes them from here.
const PZB90_ROWS: [[u8; 7]; 3] = [
    [165, 85, 23, 65, 45, 45, 25],
    [125, 70, 29, 50, 35, 25, 25],
    [105, 55, 38, 40, 25, 25, 25],
];

impl Preset {
    // The text that the PZB 90 preset's name is a place in.
    pub const PZB90_NAME: [u8; 8] = *b"Standard";

    // The PZB 90 preset: number 1, `Standard`, and the rows of the table.
    pub fn pzb90() -> Preset
        ensures standard { named (codes "Standard") result ≡ standard }
        ensures name_lies_in_its_text { LiesIn (codes "Standard") result.name }
        ensures name_text { Preset.PZB90_NAME ≡ codes "Standard" }
        ensures table_keeps_the_rule { rows_keep pzb90 ≡ true }
    {
        let [o, m, u] = PZB90_ROWS;
        let rows = Rows {
            o: Row::read(&o, 0).unwrap(),
            m: Row::read(&m, 0).unwrap(),
            u: Row::read(&u, 0).unwrap(),
        };
        Preset {
            number: PresetNumber { value: 1 },
            name: Place {
                offset: 0,
                length: Self::PZB90_NAME.len(),
            },
            rows,
        }
    }
}
