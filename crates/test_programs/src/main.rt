// Trials of what the programs print, on more than job A: the functions of crate programs on the
// case files of data/ (CASES.md says what each is), among them refused ones, one that isn't there
// and one above 65,536 bytes. tests/program_cases.py computes every line by another reading of
// document 01.
#![tactic(auto)]

mod jobs;
mod verdicts;

use std::io;

fn main(rt: HostRuntime) -> io::Result<()> {
    jobs::all_cases(&rt)?;
    verdicts::all_cases(&rt)
}
