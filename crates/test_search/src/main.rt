// Tests of the search within a budget: three jobs by the line for every budget up to the walk's
// length and one more, the room lent and the refusals in their order, then all jobs of a small
// family, every budget, told by sums and a check number. The lines are those of tests/searches.py,
// which reads request 13 anew.
#![tactic(auto)]

mod cases;
mod family;
mod lent;
mod print;

use std::io;

fn main(rt: HostRuntime) -> io::Result<()> {
    cases::job_a(&rt)?;
    cases::uneven(&rt)?;
    cases::four(&rt)?;
    lent::room(&rt)?;
    lent::order(&rt)?;
    family::all(&rt)
}
