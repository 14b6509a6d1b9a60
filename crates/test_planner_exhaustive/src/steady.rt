// Request 10: "if one slot's forecast grows by b bytes and nothing else changes, the number of
// bases carried never falls, and it rises by at most b divided by the base size, rounded up". Both
// jobs of a pair are planned. A pair of jobs of equal chunks is met once, as growing.
ghost use Rattle.std.specs.Prelude.{◌≤◌};

use crate::film::Film;
use crate::{bits, film, planned, tally};

// The job with v bytes in slot t.
fn with_slot(f: Film, t: u16, v: u32) -> Film {
    let shift = 4 * (t % 8);
    let forecast = (f.forecast & !(15 << shift)) | ((v % 16) << shift);
    Film { forecast, ..f }
}

// b divided by z, rounded up.
fn divided_up(b: u32, z: u32) -> u32
    ensures { result ≤ 15 }
{
    if z == 0 {
        0
    } else {
        (b % 16 + (z - 1) % 4) / z % 16
    }
}

// The bases carried with more bytes, against those without: at most so many more.
fn note(bases: u32, more: u32, most: u32, tally: &mut [u64]) {
    let bound = bases % 1000 + most % 16;
    tally::add(tally, tally::PAIRS, 1);
    tally::add(tally, tally::RISEN, u32::from(bases < more));
    tally::add(tally, tally::AT_BOUND, u32::from(more == bound));
    let unsteady = more < bases || bound < more;
    tally::add(tally, tally::UNSTEADY, u32::from(unsteady));
}

// Slot t gets v bytes, if that is more.
fn grow(f: Film, bases: u32, t: u16, v: u32, tally: &mut [u64]) {
    let now = bits::digit(f.forecast, t);
    if (t as usize) < film::last_due(f) && now < v {
        let most = divided_up(v - now, film::size(f, 0));
        note(bases, planned::bases(with_slot(f, t, v)), most, tally);
    }
}

pub(crate) fn trial(f: Film, tally: &mut [u64]) {
    if !film::is_equal(f) {
        return;
    }
    let bases = planned::bases(f);
    for t in 0..4 {
        grow(f, bases, t, 1, tally);
        grow(f, bases, t, 2, tally);
    }
}
