// Tests of the report. First the case files of data/ (CASES.md says what each is), whose lines
// tests/reference.py, another reading of documents 01 and 02, computes; then the room for job A's
// report, whose lines are written by hand in tests/cases.py.
#![tactic(auto)]

mod cases;
mod rooms;

use std::io;

fn main(rt: HostRuntime) -> io::Result<()> {
    cases::reports(&rt)?;
    rooms::rooms(&rt)
}
