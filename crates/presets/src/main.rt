#![tactic(auto)]

use listing::report;
use std::io;
use std::io::{Read, Write};

// Reads a preset file on standard input, and prints the report on it.
fn main(rt: HostRuntime) -> io::Result<()> {
    let mut bytes = Vec::new(rt.alloc());
    rt.stdin().read_to_end(&mut bytes)?;
    let text = report(rt.alloc(), bytes.as_slice())?;
    rt.stdout().write_all(text.as_slice())
}
