// Reads the files `job`, then `plan`, and prints `verdict n`; on a refusal, `refused n`. What is
// printed for what was read is crate programs' print_verdict.
#![tactic(auto)]

use std::io;

// Of each file one byte more than it may have is read, so that a longer one is refused by 9. A file
// that can't be opened is read as empty.
fn main(rt: HostRuntime) -> io::Result<()> {
    let mut job = [0u8; programs::READ_BYTES];
    let m = core_input::read_file(&rt, b"job", &mut job)?;
    let mut plan = [0u8; programs::READ_BYTES];
    let n = core_input::read_file(&rt, b"plan", &mut plan)?;
    let mut out = [0u8; programs::VERDICT_BYTES];
    let count = programs::print_verdict(
        core_prefix::prefix(&job, m),
        core_prefix::prefix(&plan, n),
        &mut out,
    );
    rt.write_all(core_prefix::prefix(&out, count))
}
