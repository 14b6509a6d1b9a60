// Tests of calls that no case file reaches: the checker's lengths, the meter and the counting of
// marks. The lines are written by hand in tests/by_hand/test_calls.txt. The case files are those of
// program test_files, tests of the lent room are in test_buffers.
#![tactic(auto)]

mod counts;
mod lists;
mod meters;
mod print;

use std::io;

fn main(rt: HostRuntime) -> io::Result<()> {
    lists::every_length(&rt)?;
    meters::samples(&rt)?;
    meters::forecasts(&rt)?;
    meters::means(&rt)?;
    counts::words(&rt)?;
    counts::marks(&rt)
}
