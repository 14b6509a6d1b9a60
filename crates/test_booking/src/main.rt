// Tests of two films on one link: a main film planned, booked and released beside a safety film
// that is planned on what it left; each way to 19 and 20 on job A, and the order of the refusals.
// The lines are those of tests/bookings.py.
#![tactic(auto)]

mod films;
mod lists;
mod order;
mod print;

use std::io;

fn main(rt: HostRuntime) -> io::Result<()> {
    films::together(&rt)?;
    films::other_way_round(&rt)?;
    lists::nineteen(&rt)?;
    lists::twenty(&rt)?;
    lists::room(&rt)?;
    order::order(&rt)
}
