// Tests of uneven film in direct calls: refusal 18 of each call that takes a job, in each of its
// ways, and its order against the others; a job with SZs in every call; the room lent for SZs. The
// lines are written by hand in tests/by_hand/test_uneven.txt.
#![tactic(auto)]

mod calls;
mod rooms;

use std::io;

fn main(rt: HostRuntime) -> io::Result<()> {
    calls::sizes(&rt)?;
    calls::ways(&rt)?;
    calls::halves(&rt)?;
    calls::order(&rt)?;
    rooms::rooms(&rt)
}
