// Reads a job file of either form on standard input and writes it in one sequence to standard
// output; on a refusal, `refused n`. What is written for what was read is crate programs'
// print_converted. It reads by document 01's reader alone: a file in one sequence is a mixed file
// too, if it has no SZ. One with an SZ has an unknown mark, 2.
#![tactic(auto)]

use std::io;

// One byte more than a file may have is read, so that a longer input is refused by 9.
fn main(rt: HostRuntime) -> io::Result<()> {
    let mut job = [0u8; programs::READ_BYTES];
    let n = core_input::read_full(&mut rt.stdin(), &mut job)?;
    let mut out = [0u8; programs::CONVERTED_BYTES];
    let count = programs::print_converted(core_prefix::prefix(&job, n), &mut out);
    rt.write_all(core_prefix::prefix(&out, count))
}
