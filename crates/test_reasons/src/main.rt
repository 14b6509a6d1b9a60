// Tests of the reasons under missing layers. First the case files of data/ (CASES.md says what
// each is), then the room for job A's lines, then a family of small jobs, whose texts are summed to
// one number. Every line comes from tests/reasons.py, another reading of request 14, which searches
// all pairs of slots.
#![tactic(auto)]

mod cases;
mod family;
mod rooms;

use std::io;

fn main(rt: HostRuntime) -> io::Result<()> {
    cases::texts(&rt)?;
    rooms::rooms(&rt)?;
    rooms::nothing(&rt)?;
    family::every_job(&rt)
}
