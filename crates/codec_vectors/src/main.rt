// Runs the published vectors on standard input, one a line, and writes each line with what was computed in the place of
// the published value. Lines that no crate here computes, comments among them, are passed over.
#![tactic(auto)]

use reading::read_full;
use std::io;

mod line;
mod repeat;
mod text;

// The whole of standard input, up to what the buffer holds.
fn main(rt: HostRuntime) -> io::Result<()> {
    let mut buffer = [0u8; 16384];
    let n = read_full(&mut rt.reader(), &mut buffer);
    lines(&rt, &buffer[..n])
}

fn lines(rt: &impl Print, s: &[u8]) -> io::Result<()> {
    for line in s.split(|byte| *byte == b'\n') {
        line::run(rt, line)?;
    }
    Ok(())
}
