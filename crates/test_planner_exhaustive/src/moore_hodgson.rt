// Request 9's bases, by the Moore-Hodgson algorithm written anew: "go through chunks from 1 to C,
// add each, and whenever the kept bases due by then exceed the forecast up to that due slot, drop
// the largest kept one, the earliest among equals". The kept bases are marks of layer 0.
ghost use Rattle.std.specs.Prelude.{◌≤◌};

use crate::film::Film;
use crate::{bits, film, marks};

// The base's bytes of chunk i.
fn base(f: Film, i: u16) -> u32
    ensures { result ≤ 3 }
{
    film::size(f, 4 * (i % 3))
}

// "Where H is at least C and base sizes vary".
pub(crate) fn settles(f: Film) -> bool {
    f.chunks <= film::held_most(f) && (differs(f, 1) || differs(f, 2))
}

fn differs(f: Film, i: u16) -> bool {
    i < f.chunks && base(f, i) != base(f, 0)
}

// The bytes of chunk i's base if it is kept.
fn kept_bytes(f: Film, kept: u32, i: u16) -> u32
    ensures { result ≤ 3 }
{
    if marks::carries(kept, 4 * (i % 3)) {
        base(f, i)
    } else {
        0
    }
}

// What the forecast brings in slot t, if that is before a slot.
fn brought_in(f: Film, t: u16, before: usize) -> u32
    ensures { result ≤ 15 }
{
    if (t as usize) < before {
        bits::digit(f.forecast, t)
    } else {
        0
    }
}

// Whether the kept bases are at most the forecast up to the due slot of chunk i.
fn fit(f: Film, kept: u32, i: u16) -> bool {
    let due = film::due(f, i);
    kept_bytes(f, kept, 0) + kept_bytes(f, kept, 1) + kept_bytes(f, kept, 2)
        <= brought_in(f, 0, due)
            + brought_in(f, 1, due)
            + brought_in(f, 2, due)
            + brought_in(f, 3, due)
}

// Of two chunks the one with more kept bytes, the first among equals.
fn larger(f: Film, kept: u32, i: u16, k: u16) -> u16 {
    if kept_bytes(f, kept, i) < kept_bytes(f, kept, k) {
        k
    } else {
        i
    }
}

fn without(kept: u32, i: u16) -> u32 {
    kept & !(1 << (4 * (i % 3)))
}

// Chunk i is added, if the job has it, and the largest dropped if they are then too many.
fn step(f: Film, kept: u32, i: u16) -> u32 {
    if f.chunks <= i {
        return kept;
    }
    let more = marks::with(kept, 4 * (i % 3));
    if fit(f, more, i) {
        more
    } else {
        without(more, larger(f, more, larger(f, more, 0, 1), 2))
    }
}

pub(crate) fn bases(f: Film) -> u32 {
    (0..3).fold(0, |kept, i| step(f, kept, i))
}
