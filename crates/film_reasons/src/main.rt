// Reads a job on standard input and prints the reason under each layer that its plan lacks (request
// 14); on a refusal, `refused n`. What is printed for what was read is crate programs'
// print_reasons.
#![tactic(auto)]

use std::io;

// One byte more than a file may have is read, so that a longer input is refused by 9.
fn main(rt: HostRuntime) -> io::Result<()> {
    let mut job = [0u8; programs::READ_BYTES];
    let n = core_input::read_full(&mut rt.stdin(), &mut job)?;
    let mut out = [0u8; programs::REASONS_BYTES];
    let count = programs::print_reasons(core_prefix::prefix(&job, n), &mut out);
    rt.write_all(core_prefix::prefix(&out, count))
}
