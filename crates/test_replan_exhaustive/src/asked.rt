// The desk's call for a case of the family, and the second checker call on what it hands over with
// the handed rows.
use crate::film::{Film, Sizes};
use crate::lists::Room;
use crate::{film, link, lists, sums};
use core_prefix::prefix;
use fetch::{FetchList, LentList, Rows};
use job::JobInput;
use planner::Planned;
use refusals::Refusal;

// A case: a film, the slot, the rows fetched, in either order, and the forecast's number.
#[derive(Clone, Copy)]
pub(crate) struct Case {
    pub film: Film,
    pub p: u16,
    pub list: u32,
    pub back: bool,
    pub w: u16,
}

// What came of it: a checksum over the answer and all that was lent, and the plan, where there is
// one.
#[derive(Clone, Copy)]
pub(crate) struct Got {
    pub sum: u64,
    pub plan: Option<Made>,
}

// A plan: its rows, the marks, four bits a chunk, and whether the list passes.
#[derive(Clone, Copy)]
pub(crate) struct Made {
    pub rows: usize,
    pub marks: u32,
    pub passed: bool,
}

pub(crate) fn replan_into(
    job: &JobInput,
    p: u16,
    fetched: &Rows,
    onward: &[u32],
    room: &mut Room,
) -> Result<Planned, Refusal> {
    let mut out = LentList {
        marks: &mut room.marks,
        slots: &mut room.slots,
        chunks: &mut room.chunks,
        layers: &mut room.layers,
        bytes: &mut room.bytes,
    };
    replan::replan(job, p, fetched, onward, &mut out)
}

// What is lent holds 9s.
pub(crate) fn ask(c: Case) -> Got {
    let f = c.film;
    let sizes = film::sizes_of(f);
    let forecast = link::own(c.p);
    let job = film::job_of(f, &sizes, &forecast);
    let mut fetched = lists::EMPTY;
    let n = lists::hand(c.list, c.back, 0, &mut fetched);
    let fetched = lists::first(&fetched, n);
    let onward = link::onward(c.w);
    let onward = prefix(&onward, slots_on(f, c.p));
    let mut room = lists::NINES;
    let answer = replan_into(&job, c.p, &fetched, onward, &mut room);
    let answered = sums::of_answer(sums::of_case(c), answer, room.marks);
    Got {
        sum: sums::of_rows(answered, &lists::first(&room, 18)),
        plan: plan_made(c, sizes, answer, &room),
    }
}

fn plan_made(c: Case, sizes: Sizes, answer: Result<Planned, Refusal>, room: &Room) -> Option<Made> {
    match answer {
        Ok(plan) => Some(Made {
            rows: plan.rows,
            marks: sums::word_of(room.marks),
            passed: passes(c, sizes, room, plan.rows),
        }),
        Err(_) => None,
    }
}

// How many slots there are from p on.
pub(crate) fn slots_on(f: Film, p: u16) -> usize {
    (film::last_due(f) as usize + 1).saturating_sub(p as usize)
}

// Whether the second checker call's verdict is 0 on the new rows, with the handed ones put behind
// them.
fn passes(c: Case, sizes: Sizes, room: &Room, rows: usize) -> bool {
    let f = c.film;
    let forecast = link::joined(c.p, c.w);
    let job = film::job_of(f, &sizes, &forecast);
    let mut room = *room;
    let n = lists::hand(c.list, c.back, rows, &mut room);
    let rows = lists::first(&room, n);
    let list = FetchList {
        marks: prefix(&room.marks, f.chunks as usize),
        rows,
    };
    checker::check_from(&job, c.p, &list) == Ok(0)
}
