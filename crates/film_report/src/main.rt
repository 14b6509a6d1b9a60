// Reads a job on standard input and prints its report; on a refusal, `refused n`. What is printed
// for what was read is crate programs' print_report.
#![tactic(auto)]

use std::io;

// One byte more than a file may have is read, so that a longer input is refused by 9.
fn main(rt: HostRuntime) -> io::Result<()> {
    let mut job = [0u8; programs::READ_BYTES];
    let n = core_input::read_full(&mut rt.stdin(), &mut job)?;
    let mut out = [0u8; programs::REPORT_BYTES];
    let count = programs::print_report(core_prefix::prefix(&job, n), &mut out);
    rt.write_all(core_prefix::prefix(&out, count))
}
