// What the family's tests count.
use std::io;

#[derive(Clone, Copy)]
pub(crate) struct Tally {
    pub films: u64,
    pub none_held: u64,
    pub worse: u64,
    pub first: u64,
    pub later: u64,
    pub last: u64,
    pub none_works: u64,
    pub too_short: u64,
    pub same: u64,
}

pub(crate) const NOTHING: Tally = Tally {
    films: 0,
    none_held: 0,
    worse: 0,
    first: 0,
    later: 0,
    last: 0,
    none_works: 0,
    too_short: 0,
    same: 0,
};

// One more, where the test holds.
pub(crate) fn count(n: &mut u64, test: bool) {
    *n = n.saturating_add(u64::from(test));
}

pub(crate) fn say(rt: &impl Print, tally: Tally) -> io::Result<()> {
    let Tally {
        films,
        none_held,
        worse,
        first,
        later,
        last,
        none_works,
        too_short,
        same,
    } = tally;
    println!(rt; "films {films} with H 0 {none_held} a longer wait worse {worse}")?;
    print!(rt; "the first s {first} a later one {later} the last within the forecast {last}")?;
    println!(rt; " none works {none_works} too short for s = 1 {too_short}")?;
    println!(rt; "the same answer by plans {same}")
}
