// Tests of the calls on link traces. First the case files of data/ (CASES.md says what each is),
// read for three slots and written again, whose lines tests/reference.py computes; then slot
// counts, rooms and refusals that compete, whose lines are written by hand in
// tests/by_hand/test_trace.txt.
#![tactic(auto)]

mod print;
mod reading;
mod writing;

use std::io;

fn main(rt: HostRuntime) -> io::Result<()> {
    reading::trace_files(&rt)?;
    reading::slot_counts(&rt)?;
    reading::rooms(&rt)?;
    writing::forecasts(&rt)?;
    writing::slots(&rt)
}
