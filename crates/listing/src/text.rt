ghost use Rattle.std.specs.Prelude.{◌≡◌, true, ◌++◌, length, string_bytes, IfOk, OnOk};
ghost use Rattle.listing.specs.Report.{all_lines, outcome, report_of};
ghost use Rattle.listing.specs.declared.lines.Verdict.TheVariants.{Same};
ghost use Rattle.preset.specs.Calls.{Lists};
ghost use Rattle.preset.specs.Entries.{first_refusal};
ghost use Rattle.preset.specs.Names.{is_name};
ghost use Rattle.preset.specs.Presets.{all_named, part, AllLieIn, LiesIn};
ghost use Rattle.preset.specs.Valid.{AllSound};

use crate::lines::{PresetLines, RefusalLine, Verdict, WrittenBack};
use preset::{Preset, PresetFile, read, write};
use std::alloc::{AllocError, Global};
use std::str;

// A preset's name, which is text since each of its bytes is printable.
#[tactic(auto, using(crate::proofs::Names::name_is_text))]
fn name_of<'a>(file: &PresetFile<'a>, preset: &Preset) -> &'a str
    requires in_file { LiesIn file.now.bytes.now preset.now.name }
    requires printable { is_name (part file.now.bytes.now preset.now.name) ≡ true }
    ensures { result.now ≡ part file.now.bytes.now preset.now.name }
{
    let name = file.name(preset).unwrap();
    str::from_utf8(name).unwrap()
}

// The lines of all presets of a file.
fn put_presets(out: &mut String, file: &PresetFile, presets: &[Preset]) -> Result<(), AllocError>
    requires in_file { AllLieIn file.now.bytes.now presets.now }
    requires sound { AllSound (all_named file.now.bytes.now presets.now) }
    ensures { OnOk result (string_bytes out.new ≡ string_bytes out.old ++ all_lines (all_named file.now.bytes.now presets.now)) }
{
    for preset in presets {
        let name = name_of(file, preset);
        write!(out, "{}", PresetLines { preset, name })?;
    }
    Ok(())
}

// Writes the presets of a file with the file as their text, which nothing refuses, and compares.
fn written_back(heap: Global, presets: &[Preset], bytes: &[u8]) -> Result<WrittenBack, AllocError>
    requires { Lists bytes.now presets.now }
    ensures length { IfOk result (λ back. back.length ≡ length bytes.now) }
    ensures same { IfOk result (λ back. back.verdict ≡ Same) }
{
    let mut memory = vec![in heap; 0u8; bytes.len()]?;
    let buffer = memory.as_mut_slice();
    let length = write(presets, bytes, buffer).unwrap();
    let verdict = if &buffer[..length] == bytes {
        Verdict::Same
    } else {
        Verdict::Differs
    };
    Ok(WrittenBack { length, verdict })
}

// What comes after the first line: the presets and what came of writing them back, or the refusal.
// The allocator is for the buffer to write back into, beside the text, which has its own.
fn put_outcome(heap: Global, out: &mut String, bytes: &[u8]) -> Result<(), AllocError>
    ensures { OnOk result (string_bytes out.new ≡ string_bytes out.old ++ outcome bytes.now (first_refusal bytes.now)) }
{
    match read(bytes) {
        Ok(file) => {
            let presets = file.presets();
            put_presets(out, &file, presets.as_slice())?;
            let back = written_back(heap, presets.as_slice(), bytes)?;
            write!(out, "{back}")
        }
        Err(refusal) => write!(out, "{}", RefusalLine(refusal)),
    }
}

// The report on the bytes of a preset file, from beginning to end.
pub fn report(heap: Global, bytes: &[u8]) -> Result<Vec<u8>, AllocError>
    ensures { IfOk result (λ out. out.items ≡ report_of bytes.now) }
{
    let mut out = String::new(heap);
    let length = bytes.len();
    writeln!(out, "read {length} bytes")?;
    put_outcome(heap, &mut out, bytes)?;
    Ok(out.into_bytes())
}
