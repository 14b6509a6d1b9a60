// The shortest wait: single cases, whose lines are written by hand in tests/by_hand/test_wait.txt,
// then the answer against plans laid out for every s, on all films of a small family: C 1 to 3, L 1
// or 2, limit 0 to 3, size 1 or 2, and each forecast of 1 to 5 slots of 0, 1 or 2 bytes.
#![tactic(auto)]

mod cases;
mod family;
mod plans;
mod tally;

use std::io;

fn main(rt: HostRuntime) -> io::Result<()> {
    cases::small(&rt)?;
    cases::binding(&rt)?;
    cases::programmes(&rt)?;
    cases::lengths(&rt)?;
    cases::ranges(&rt)?;
    cases::uneven_films(&rt)?;
    cases::large(&rt)?;
    let mut tally = tally::NOTHING;
    family::every_film(&mut tally);
    tally::say(&rt, tally)
}
