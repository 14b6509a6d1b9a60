// Standing plans settled in document 01's way: at each p, with the plan's own rows before it and
// the forecast as it was, the new marks are the plan's and the new rows the rest of it.
ghost use Rattle.std.specs.Prelude.{◌≤◌};

use crate::film::{Film, Sizes};
use crate::lists::Room;
use crate::{asked, film, link, lists, sums, tally};
use core_prefix::prefix;
use fetch::{LentList, Rows};

// How many of the rows are before p; 9s stand after them.
fn before(p: u16, slots: &[u16; 18]) -> usize
    ensures { result ≤ 18 }
{
    slots.iter().position(|&slot| p <= slot).unwrap_or(18)
}

// The rows after the first m.
fn rest(room: &Room, m: usize) -> Rows<'_> {
    let m = m.min(18);
    Rows {
        slots: &room.slots[m..],
        chunks: &room.chunks[m..],
        layers: &room.layers[m..],
        bytes: &room.bytes[m..],
    }
}

// The plan's own rows and marks go on at p as they were.
fn goes_on(f: Film, p: u16, w: u16, sizes: Sizes, own: &Room) -> bool {
    let m = before(p, &own.slots);
    let forecast = link::onward(w);
    let job = film::job_of(f, &sizes, &forecast);
    let fetched = lists::first(own, m);
    let onward = link::rest(w, p);
    let onward = prefix(&onward, asked::slots_on(f, p));
    let mut room = lists::NINES;
    let answer = asked::replan_into(&job, p, &fetched, onward, &mut room);
    let new = lists::first(&room, 18usize.saturating_sub(m));
    answer.is_ok()
        && sums::word_of(room.marks) == sums::word_of(own.marks)
        && sums::of_rows(0, &rest(own, m)) == sums::of_rows(0, &new)
}

fn plan(f: Film, w: u16, sizes: Sizes, tally: &mut [u64]) {
    let forecast = link::onward(w);
    let job = film::job_of(f, &sizes, &forecast);
    let mut own = lists::NINES;
    let mut out = LentList {
        marks: &mut own.marks,
        slots: &mut own.slots,
        chunks: &mut own.chunks,
        layers: &mut own.layers,
        bytes: &mut own.bytes,
    };
    if planner::plan(&job, &mut out).is_err() {
        return;
    }
    for p in 1..=film::last_due(f) {
        let same = goes_on(f, p, w, sizes, &own);
        tally::add(tally, tally::STANDING, 1);
        tally::add_if(tally, tally::GOES_ON, same);
    }
}

pub(crate) fn every_forecast(f: Film, tally: &mut [u64]) {
    if film::walked(f) {
        return;
    }
    let sizes = film::sizes_of(f);
    for w in 0..link::forecasts(film::last_due(f) as usize) {
        plan(f, w, sizes, tally);
    }
}
