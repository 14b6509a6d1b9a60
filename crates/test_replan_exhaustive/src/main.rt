// Planning afresh on all cases of a small family: C 2 or 3, L 1 or 2, s 1 to 3, last due slot at
// most 4, limit 0 to 3, one or two layers of 1 or 2 bytes, equal and uneven; each p; every list of
// bytes before p, at most two a slot, none late and no layer of more than its size; and each
// forecast of 0, 1 or 2 bytes a slot from p on. The rows are handed in two orders. tests/replans.py
// decides each layer by a search over all lists and prints the same counts and the same checksum
// over all answers. Then standing plans, at every p against the rest of the plan.
#![tactic(auto)]

mod asked;
mod film;
mod link;
mod lists;
mod standing;
mod sums;
mod tally;

use crate::asked::{Case, Made};
use crate::film::Film;
use std::io;

// Whether a part has some bytes and not all in the rows fetched.
fn is_short(f: Film, list: u32, part: u16) -> bool {
    let n = lists::count(list, 1 + part % 8);
    0 < n && n < film::size(f, part)
}

fn carries(marks: u32, part: u16) -> bool {
    part < film::PARTS && (marks >> (4 * (part / 2) + part % 2)) % 2 == 1
}

fn ends_some(f: Film, list: u32, marks: u32) -> bool {
    (0..film::PARTS).any(|part| is_short(f, list, part) && carries(marks, part))
}

fn gives_up_some(f: Film, list: u32, marks: u32) -> bool {
    (0..film::PARTS).any(|part| is_short(f, list, part) && !carries(marks, part))
}

// The marks of the film's own chunks.
fn own_marks(f: Film, marks: u32) -> u32 {
    if f.chunks == 2 {
        marks % 256
    } else {
        marks % 4096
    }
}

fn note_kind(c: Case, marks: u32, tally: &mut [u64]) {
    let f = c.film;
    tally::add_if(tally, tally::NONE_HELD, film::held_most(f) == 0);
    tally::add_if(tally, tally::DUE_BEFORE, film::due(f, 0) < c.p);
    tally::add_if(tally, tally::GIVEN_UP, gives_up_some(f, c.list, marks));
    tally::add_if(tally, tally::ENDED, ends_some(f, c.list, marks));
}

fn note_plan(plan: Made, marks: u32, tally: &mut [u64]) {
    tally::add(tally, tally::PLANS, 1);
    tally::add(tally, tally::BASES, (marks & 0x111).count_ones());
    tally::add(tally, tally::UPPERS, (marks & 0x222).count_ones());
    tally::add(tally, tally::ROWS, (plan.rows % 100) as u32);
    tally::add_if(tally, tally::PASSED, plan.passed);
}

// The case in either order of its rows. Whether it was planned: a list is refused whatever the
// forecast from p on is.
fn trial(c: Case, tally: &mut [u64]) -> bool {
    let got = asked::ask(c);
    let again = asked::ask(Case { back: true, ..c });
    let sum = sums::plus(tally::number(tally, tally::SUM), got.sum);
    tally::set(tally, tally::SUM, sum);
    tally::add_if(tally, tally::TURNED, got.sum == again.sum);
    let Some(plan) = got.plan else {
        tally::add(tally, tally::REFUSED, 1);
        return false;
    };
    let marks = own_marks(c.film, plan.marks);
    note_kind(c, marks, tally);
    note_plan(plan, marks, tally);
    true
}

fn every_forecast(f: Film, p: u16, list: u32, tally: &mut [u64]) {
    for w in 0..link::forecasts(asked::slots_on(f, p)) {
        let c = Case {
            film: f,
            p,
            list,
            back: false,
            w,
        };
        if !trial(c, tally) {
            return;
        }
    }
}

fn one_list(f: Film, p: u16, list: u32, tally: &mut [u64]) {
    if lists::is_list(f, list) {
        tally::add(tally, tally::LISTS, 1);
        every_forecast(f, p, list, tally);
    }
}

fn every_list(f: Film, p: u16, tally: &mut [u64]) {
    for list in 0..lists::bound(p) {
        one_list(f, p, list, tally);
    }
}

fn every_slot(f: Film, tally: &mut [u64]) {
    let last = film::last_due(f);
    if 4 < last {
        return;
    }
    tally::add(tally, tally::FILMS, 1);
    for p in 1..=last {
        every_list(f, p, tally);
    }
    standing::every_forecast(f, tally);
}

fn every_film(tally: &mut [u64]) {
    for k in 0..film::NUMBERS {
        every_slot(film::film_of(k), tally);
    }
}

// The words, and the numbers from one on and before another.
fn say(rt: &impl Print, words: &str, tally: &[u64], from: u16, to: u16) -> io::Result<()> {
    print!(rt; "{words}")?;
    for k in from..to {
        print!(rt; " {}", tally::number(tally, k))?;
    }
    println!(rt;)
}

fn main(rt: HostRuntime) -> io::Result<()> {
    let mut tally = [0u64; 16];
    every_film(&mut tally);
    say(
        &rt,
        "films; lists of rows fetched; refused by 22:",
        &tally,
        tally::FILMS,
        tally::PLANS,
    )?;
    say(
        &rt,
        "plans made afresh; with H 0, a chunk due before p, a begun layer given up, one ended; bases, layers above, rows from p on; that pass the second call:",
        &tally,
        tally::PLANS,
        tally::TURNED,
    )?;
    say(
        &rt,
        "the same with the rows in another order; checksum over all answers:",
        &tally,
        tally::TURNED,
        tally::STANDING,
    )?;
    say(
        &rt,
        "standing plans, at each p; that go on as they were:",
        &tally,
        tally::STANDING,
        16,
    )
}
