// What to fetch next on all cases of a small family: C 2 or 3, L 1 or 2, s 1 to 3, last due slot at
// most 4, limit 0 to 3, one or two layers of 1 to 3 bytes, equal and uneven; each p; every list of
// bytes before p, at most two a slot, none late and no layer of more than its size; and the rates
// 0 to 3 and the largest. The rows are handed in two orders. tests/lives.py reads the rule anew and
// prints the same counts and the same checksum over all answers. Then the first 0, 1 and 2 bytes of
// the asks as rows of slot p: the next slot accepts every such list.
#![tactic(auto)]

mod asked;
mod film;
mod lists;
mod sums;
mod tally;

use crate::asked::Case;
use crate::film::Film;
use std::io;

// The rates tried. At the largest no piece is passed over.
const LARGEST: u32 = 4294967295;

const RATES: [u32; 5] = [0, 1, 2, 3, LARGEST];

// Whether fewer pieces are asked at this rate than at the largest.
fn is_fewer(c: Case, pieces: usize) -> bool {
    let most = asked::ask(Case { rate: LARGEST, ..c });
    most.pieces.is_some_and(|most| pieces < most)
}

// One more byte of the asks, and the slot after it.
fn follow(c: Case, came: u32, tally: &mut [u64]) {
    if c.p < film::last_due(c.film) {
        let got = asked::ask(Case { came, ..c });
        tally::add(tally, tally::TAKEN, 1);
        tally::add_if(tally, tally::ACCEPTED, got.accepted);
    }
}

fn note(c: Case, pieces: usize, tally: &mut [u64]) {
    tally::add(tally, tally::ASKED, 1);
    tally::add_if(tally, tally::NOTHING, pieces == 0);
    tally::add(tally, tally::PIECES, (pieces % 100) as u32);
    tally::add_if(tally, tally::FEWER, is_fewer(c, pieces));
}

// Whether the call answered; the refusals do not depend on the rate.
fn trial(c: Case, tally: &mut [u64]) -> bool {
    let got = asked::ask(c);
    let again = asked::ask(Case { back: true, ..c });
    let sum = sums::plus(tally::number(tally, tally::SUM), got.sum);
    tally::set(tally, tally::SUM, sum);
    tally::add_if(tally, tally::TURNED, got.sum == again.sum);
    let Some(pieces) = got.pieces else {
        tally::add(tally, tally::REFUSED, 1);
        return false;
    };
    note(c, pieces, tally);
    for came in 0..3 {
        follow(c, came, tally);
    }
    true
}

fn every_rate(f: Film, p: u16, list: u32, tally: &mut [u64]) {
    for &rate in &RATES {
        let c = Case {
            film: f,
            p,
            list,
            back: false,
            rate,
            came: 0,
        };
        if !trial(c, tally) {
            return;
        }
    }
}

fn one_list(f: Film, p: u16, list: u32, tally: &mut [u64]) {
    if lists::is_list(f, list) {
        tally::add(tally, tally::LISTS, 1);
        every_rate(f, p, list, tally);
    }
}

fn every_list(f: Film, p: u16, tally: &mut [u64]) {
    for list in 0..lists::bound(p) {
        one_list(f, p, list, tally);
    }
}

fn every_slot(f: Film, tally: &mut [u64]) {
    let last = film::last_due(f);
    if 4 < last {
        return;
    }
    tally::add(tally, tally::FILMS, 1);
    for p in 1..=last {
        every_list(f, p, tally);
    }
}

fn every_film(tally: &mut [u64]) {
    for k in 0..film::NUMBERS {
        every_slot(film::film_of(k), tally);
    }
}

// The words, and the numbers from one on and before another.
fn say(rt: &impl Print, words: &str, tally: &[u64], from: u16, to: u16) -> io::Result<()> {
    print!(rt; "{words}")?;
    for k in from..to {
        print!(rt; " {}", tally::number(tally, k))?;
    }
    println!(rt;)
}

fn main(rt: HostRuntime) -> io::Result<()> {
    let mut tally = [0u64; 11];
    every_film(&mut tally);
    say(
        &rt,
        "films; lists of rows fetched; refused by 22:",
        &tally,
        tally::FILMS,
        tally::ASKED,
    )?;
    say(
        &rt,
        "asks; of nothing; pieces; asks of fewer pieces than at the largest rate:",
        &tally,
        tally::ASKED,
        tally::TURNED,
    )?;
    say(
        &rt,
        "the same with the rows in another order; checksum over all answers:",
        &tally,
        tally::TURNED,
        tally::TAKEN,
    )?;
    say(
        &rt,
        "first bytes of the asks as rows; that the next slot accepts:",
        &tally,
        tally::TAKEN,
        tally::ALL,
    )
}
