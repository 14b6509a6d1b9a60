// Tests of the call for most pictures: some films by the line, with no pass and with as many as
// they take; the room in the caller's slices and the refusals in their order; then all films of a
// small family, told by sums. The lines are those of tests/most_cases.py, which tries every set of
// bases and every list.
#![tactic(auto)]

mod cases;
mod family;
mod lent;
mod print;

use std::io;

fn main(rt: HostRuntime) -> io::Result<()> {
    cases::job_a(&rt)?;
    cases::poor(&rt)?;
    cases::in_any_order(&rt)?;
    cases::lowered(&rt)?;
    cases::none_held(&rt)?;
    cases::refined(&rt)?;
    lent::room(&rt)?;
    lent::order(&rt)?;
    family::all(&rt)
}
