// Tests of the readers, the writers and the checker by files. First the case files of data/
// (CASES.md says what each is), whose lines tests/reference.py, another reading of document 01,
// computes; then plan files at the limit of 65,536 bytes, whose lines are written by hand in
// tests/cases.py.
#![tactic(auto)]

mod files;
mod large;
mod print;

use std::io;

fn main(rt: HostRuntime) -> io::Result<()> {
    files::job_files(&rt)?;
    files::plan_files(&rt)?;
    large::plan_files(&rt)
}
