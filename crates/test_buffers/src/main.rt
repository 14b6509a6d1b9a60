// Tests of the readers, the writers and the planner by the room that is lent: exact, one short for
// each slice, and refusals beside 11. The lines are written by hand in
// tests/by_hand/test_buffers.txt.
#![tactic(auto)]

mod jobs;
mod planned;
mod plans;
mod rooms;

use std::io;

fn main(rt: HostRuntime) -> io::Result<()> {
    jobs::writes(&rt)?;
    jobs::reads(&rt)?;
    plans::files(&rt)?;
    planned::rooms(&rt)
}
