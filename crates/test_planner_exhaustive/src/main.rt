// The planner against another one, which decides each layer by an exhaustive search over fetch
// lists, its rows against the own list listed anew, and demand 3's bounds against every passing
// list, on all jobs of a small family: C 1 to 3, L and s 1 or 2, last due slot at most 4, limit 0
// to 3, one to four layers of 1 byte each, or the base or the layer above it of 2, and each
// forecast of 0, 1 or 2 bytes a slot. Of uneven film all bases of 1 and 2 bytes, and some of two
// and three layers.
#![tactic(auto)]

mod bits;
mod bounds;
mod film;
mod lists;
mod marks;
mod moore_hodgson;
mod own;
mod planned;
mod search;
mod steady;
mod tally;

ghost use Rattle.std.specs.Prelude.{◌≤◌};

use crate::film::Film;
use std::io;

// 48 programmes, 81 forecasts of four slots.
const NUMBERS: u16 = 3888;

// Two bits a layer, the base lowest, and a byte a chunk, the first lowest. The last 11 are uneven.
const SIZES: [u32; 22] = [
    0x10101, 0x20202, 0x50505, 0x60606, 0x90909, 0x151515, 0x161616, 0x191919, 0x555555, 0x565656,
    0x595959, 0x20101, 0x10201, 0x20201, 0x10102, 0x20102, 0x10202, 0x90605, 0x90506, 0x50905,
    0x60509, 0x151615,
];

fn third(k: u16) -> u32
    ensures { result ≤ 2 }
{
    (k % 3) as u32
}

fn forecast(k: u16) -> u32 {
    third(k) + 16 * third(k / 3) + 256 * third(k / 9) + 4096 * third(k / 27)
}

// The job numbered k of these sizes.
fn film_of(k: u16, sizes: u32) -> Film {
    Film {
        chunks: 1 + k % 3,
        span: 1 + k / 3 % 2,
        delay: 1 + k / 6 % 2,
        limit: k / 12 % 4,
        sizes,
        forecast: forecast(k / 48),
    }
}

// Whether the last due slot is at most 4, with nothing in the forecast after it, and no SZ for a
// chunk past the last. The remainder tells the prover that the shift is small.
fn is_job(f: Film) -> bool {
    let slots = film::last_due(f);
    slots <= 4 && f.forecast >> (4 * (slots % 5)) == 0 && film::ends_equal(f)
}

fn leaves_rest(f: Film) -> bool {
    0 < f.span && 0 < f.limit % f.span
}

// The plan of the same film with a limit that holds the whole programme, of at most 3 chunks of 2
// slots.
fn unlimited_plan(f: Film) -> u32 {
    search::plan(Film { limit: 6, ..f })
}

fn flags_of(f: Film, marks: u32) -> u32 {
    let layers = film::layers(f);
    tally::flag(tally::JOBS)
        | tally::flag_if(tally::THREE_LAYERS, layers == 3)
        | tally::flag_if(tally::FOUR_LAYERS, layers == 4)
        | tally::flag_if(tally::UNEVEN, !film::is_equal(f))
        | tally::flag_if(tally::NONE_HELD, film::held_most(f) == 0)
        | tally::flag_if(tally::LIMIT_REST, leaves_rest(f))
        | tally::flag_if(
            tally::EMPTY,
            (bits::nonzero(f.forecast) as usize) < film::last_due(f),
        )
        | tally::flag_if(tally::BINDING, unlimited_plan(f) != marks)
        | tally::flag_if(tally::MOORE_HODGSON, moore_hodgson::settles(f))
}

fn trial(f: Film, tally: &mut [u64]) {
    if !is_job(f) {
        return;
    }
    let marks = search::plan(f);
    let own = own::list(f, marks);
    tally::add(tally, tally::BASES, marks::count(marks, 0));
    tally::add(tally, tally::UPPERS, bits::ones(marks & 0xeee));
    tally::add(tally, tally::ROWS, lists::rows(own));
    tally::add_flags(tally, flags_of(f, marks) | planned::compare(f, marks, own));
    search::weigh_all(f, marks, tally);
    steady::trial(f, tally);
}

fn every_job(tally: &mut [u64]) {
    for k in 0..NUMBERS {
        for &sizes in &SIZES {
            trial(film_of(k, sizes), tally);
        }
    }
}

// The words, and the numbers from one on and before another.
fn say(rt: &impl Print, words: &str, tally: &[u64], from: u16, to: u16) -> io::Result<()> {
    print!(rt; "{words}")?;
    for k in from..to {
        print!(rt; " {}", tally::number(tally, k))?;
    }
    println!(rt;)
}

fn say_all(rt: &impl Print, tally: &[u64]) -> io::Result<()> {
    say(
        rt,
        "jobs; with three layers, four layers, uneven chunks, H 0, a limit no multiple of L, an empty slot, a limit that binds, bases settled by request 9:",
        tally,
        tally::JOBS,
        tally::LISTS,
    )?;
    say(rt, "bases, layers above, rows:", tally, tally::BASES, 27)?;
    say(
        rt,
        "lists that pass; bounds on bases, on layers 0 to 3 in playing order, with the whole held, for equal chunks; on bases of uneven film, with the whole held; lists that break one; of uneven film under a limit, that carry more bases than the plan:",
        tally,
        tally::LISTS,
        tally::SAME_MARKS,
    )?;
    say(
        rt,
        "pairs of equal chunks that differ in one slot; with more bases, as many more as can be, other than promised:",
        tally,
        tally::PAIRS,
        31,
    )?;
    say(
        rt,
        "plans with the same marks, counts, rows; that pass, in playing order:",
        tally,
        tally::SAME_MARKS,
        tally::BASES,
    )
}

fn main(rt: HostRuntime) -> io::Result<()> {
    let mut tally = [0u64; 31];
    every_job(&mut tally);
    say_all(&rt, &tally)
}
