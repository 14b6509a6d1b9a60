// Tests of planning afresh and of the second checker call, on the cases that stand on standard
// input, a line each: tests/replans.py writes them, and what has to come of each.
#![tactic(auto)]

mod call;
mod line;
mod print;
mod table;

use core_prefix::prefix;
use std::io;

// An empty line is a case too; nothing follows the last line feed.
fn every_line(rt: &impl Print, text: &[u8]) -> io::Result<()> {
    if text.is_empty() {
        return Ok(());
    }
    let lines = text.strip_suffix(b"\n").unwrap_or(text);
    for line in lines.split(|&b| b == b'\n') {
        call::case(rt, line)?;
    }
    Ok(())
}

fn main(rt: HostRuntime) -> io::Result<()> {
    let mut file = [0u8; 65536];
    let n = core_input::read_full(&mut rt.stdin(), &mut file)?;
    every_line(&rt, prefix(&file, n))
}
