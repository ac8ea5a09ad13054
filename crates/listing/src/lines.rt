ghost use Rattle.std.specs.Prelude.{◌≡◌, Some};
ghost use Rattle.listing.specs.Report.{letter_of, preset_lines, refusal_line, row_line, verdict, wrote_line};
ghost use Rattle.preset.specs.Presets.{three_rows};

use preset::{Preset, Programme, Refusal};
use std::fmt;

// A programme's letter. No `Display`: `preset` knows nothing of reports, and here both the trait and the type are of other crates.
fn letter(programme: Programme) -> &'static str
    ensures { result.now ≡ letter_of programme }
{
    match programme {
        Programme::O => "O",
        Programme::M => "M",
        Programme::U => "U",
    }
}

// The line of the row that a programme chooses.
#[derive(Clone, Copy)]
struct RowLine<'a> {
    preset: &'a Preset,
    programme: Programme,
}

impl fmt::Display for RowLine<'_> {
    ghost output = { λ l. Some (row_line l.programme (three_rows l.preset.now.rows)) };

    fn fmt<W: fmt::Write>(&self, f: &mut fmt::Formatter<W>) -> fmt::Result {
        let letter = letter(self.programme);
        let [top, low, fall, high5, low5, rhigh, rlow] = self.preset.row(self.programme).numbers();
        writeln!(
            f,
            "{letter} {top} {low} {fall} {high5} {low5} {rhigh} {rlow}"
        )
    }
}

// The lines of a preset with its name.
#[derive(Clone, Copy)]
pub(crate) struct PresetLines<'a> {
    pub(crate) preset: &'a Preset,
    pub(crate) name: &'a str,
}

impl fmt::Display for PresetLines<'_> {
    ghost output = { λ l. Some (preset_lines l.preset.now.number.value l.name.now (three_rows l.preset.now.rows)) };

    fn fmt<W: fmt::Write>(&self, f: &mut fmt::Formatter<W>) -> fmt::Result {
        let number = self.preset.number.value;
        let name = self.name;
        writeln!(f, "preset {number} {name}")?;
        let preset = self.preset;
        let row = |programme| RowLine { preset, programme };
        let (o, m, u) = (row(Programme::O), row(Programme::M), row(Programme::U));
        write!(f, "{o}{m}{u}")
    }
}

// The line of a refusal.
#[derive(Clone, Copy)]
pub(crate) struct RefusalLine(pub(crate) Refusal);

impl fmt::Display for RefusalLine {
    ghost output = { λ l. Some (refusal_line l.0) };

    fn fmt<W: fmt::Write>(&self, f: &mut fmt::Formatter<W>) -> fmt::Result {
        let number = self.0.number();
        let layer = self.0.layer();
        match self.0.entry() {
            Some(entry) => writeln!(f, "no {number} {layer} {entry}"),
            None => writeln!(f, "no {number} {layer}"),
        }
    }
}

// How what was written compares with what was read.
#[derive(Clone, Copy, Debug, PartialEq, Eq)]
pub(crate) enum Verdict {
    Same,
    Differs,
}

impl fmt::Display for Verdict {
    ghost output = { λ v. Some (verdict v) };

    fn fmt<W: fmt::Write>(&self, f: &mut fmt::Formatter<W>) -> fmt::Result {
        f.write_str(match self {
            Verdict::Same => "same",
            Verdict::Differs => "differs",
        })
    }
}

// What came of writing a file back.
#[derive(Clone, Copy, Debug, PartialEq, Eq)]
pub(crate) struct WrittenBack {
    pub(crate) length: usize,
    pub(crate) verdict: Verdict,
}

impl fmt::Display for WrittenBack {
    ghost output = { λ w. Some (wrote_line w.length w.verdict) };

    fn fmt<W: fmt::Write>(&self, f: &mut fmt::Formatter<W>) -> fmt::Result {
        let length = self.length;
        let verdict = self.verdict;
        writeln!(f, "wrote {length} bytes, {verdict}")
    }
}
