ghost use Rattle.std.specs.Prelude.{◌≡◌, true};
ghost use Rattle.preset.specs.Rule.{in_order, row_keeps};

use crate::{Kmh, Refusal, Seconds};

// The numbers of a row by their names. By themselves they need not keep the rule.
#[derive(Clone, Copy, Debug, PartialEq, Eq)]
pub struct RowFields {
    // the limit where a 1000 Hz run begins, and the one that it falls to within the time `fall`
    pub top: Kmh,
    pub low: Kmh,
    pub fall: Seconds,
    // the limit where a 500 Hz run begins, and the one that it falls to
    pub high5: Kmh,
    pub low5: Kmh,
    // the same of a restrictive run
    pub rhigh: Kmh,
    pub rlow: Kmh,
}

// Seven numbers that keep the row rule.
#[derive(Clone, Copy, Debug, PartialEq, Eq)]
pub struct Row {
    fields: RowFields,
    ghost rule: { row_keeps (in_order fields) ≡ true },
}

impl Row {
    ghost use Rattle.preset.specs.Calls.{Makes};
    ghost use Rattle.preset.specs.Presets.{row_fields, row_numbers};
    ghost use Rattle.preset.specs.Steps.{ReadsRow};

    // The row of seven numbers, or a refusal where they break the row rule. They come in the order in which the rule first names them, and as bare
    // numbers: here they get their names and units.
    pub fn new(
        rlow: u8,
        rhigh: u8,
        low5: u8,
        high5: u8,
        top: u8,
        low: u8,
        fall: u8,
    ) -> Result<Row, Refusal>
        ensures { Makes top low fall high5 low5 rhigh rlow result }
    {
        if 1 <= rlow
            && rlow <= rhigh
            && rhigh <= 45
            && rlow <= low5
            && low5 <= high5
            && high5 <= top
            && rhigh <= high5
            && 45 <= low
            && low <= top
            && top <= 250
            && 1 <= fall
            && fall <= 60
        {
            let fields = RowFields {
                top: Kmh { value: top },
                low: Kmh { value: low },
                fall: Seconds { value: fall },
                high5: Kmh { value: high5 },
                low5: Kmh { value: low5 },
                rhigh: Kmh { value: rhigh },
                rlow: Kmh { value: rlow },
            };
            Ok(Row { fields })
        } else {
            // the rules name entry 0 for a row that is made alone
            Err(Refusal::Rows(0))
        }
    }

    // The row of seven bytes in the file's order, in the entry that is refused where they break the rule. Nothing else here makes a row.
    pub(crate) fn read(bytes: &[u8; 7], entry: u8) -> Result<Row, Refusal>
        ensures { ReadsRow entry bytes.now result }
    {
        let [top, low, fall, high5, low5, rhigh, rlow] = *bytes;
        Row::new(rlow, rhigh, low5, high5, top, low, fall).map_err(|_| Refusal::Rows(entry))
    }

    // The seven numbers by their names, with their units.
    pub fn fields(&self) -> RowFields
        ensures { result ≡ row_fields self.now }
    {
        self.fields
    }

    // The same as bare numbers, in the file's order.
    pub fn numbers(&self) -> [u8; 7]
        ensures { result ≡ row_numbers self.now }
    {
        let row = self.fields;
        [
            row.top.value,
            row.low.value,
            row.fall.value,
            row.high5.value,
            row.low5.value,
            row.rhigh.value,
            row.rlow.value,
        ]
    }
}
