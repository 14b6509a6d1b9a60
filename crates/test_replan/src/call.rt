// A case: its number of the call, C, L, s and the limit, then the lists of table::Places, then how
// much is lent. The calls are 0, planning afresh; 1, the second checker call; 2, the plan. Each is
// told whole: the answer, the counts, and every lent byte afterwards. What is lent holds 9s.
use crate::table::{Places, Tables};
use crate::{line, print, table};
use core_prefix::prefix;
use fetch::{FetchList, LentList, Rows};
use planner::Planned;
use refusals::Refusal;
use std::io;

// How much is lent.
#[derive(Clone, Copy)]
struct Lengths {
    marks: usize,
    slots: usize,
    chunks: usize,
    layers: usize,
    bytes: usize,
}

#[derive(Clone, Copy)]
struct Room {
    marks: [u8; 8],
    slots: [u16; 40],
    chunks: [u16; 40],
    layers: [u8; 40],
    bytes: [u32; 40],
}

fn nines() -> Room {
    Room {
        marks: [9; 8],
        slots: [9; 40],
        chunks: [9; 40],
        layers: [9; 40],
        bytes: [9; 40],
    }
}

// Five numbers.
fn lengths_in(tables: &Tables, at: usize) -> Lengths {
    let at = at.min(511);
    Lengths {
        marks: table::small(tables, at),
        slots: table::small(tables, at + 1),
        chunks: table::small(tables, at + 2),
        layers: table::small(tables, at + 3),
        bytes: table::small(tables, at + 4),
    }
}

// What came of a call, and what is lent afterwards.
fn tell(
    rt: &impl Print,
    plan: Result<Planned, Refusal>,
    lengths: Lengths,
    room: &Room,
) -> io::Result<()> {
    print::plan_said(rt, plan)?;
    let rows = Rows {
        slots: prefix(&room.slots, lengths.slots),
        chunks: prefix(&room.chunks, lengths.chunks),
        layers: prefix(&room.layers, lengths.layers),
        bytes: prefix(&room.bytes, lengths.bytes),
    };
    let list = FetchList {
        marks: prefix(&room.marks, lengths.marks),
        rows,
    };
    print::list_said(rt, &list)
}

fn replan_case(rt: &impl Print, tables: &Tables, at: Places) -> io::Result<()> {
    let job = table::job_in(tables, at);
    let from = table::slot(tables, at.from);
    let fetched = table::rows_in(tables, at);
    let onward = table::words(tables, at.last);
    let lengths = lengths_in(tables, at.room);
    let mut room = nines();
    let mut lent = LentList {
        marks: &mut room.marks[..lengths.marks.min(8)],
        slots: &mut room.slots[..lengths.slots.min(40)],
        chunks: &mut room.chunks[..lengths.chunks.min(40)],
        layers: &mut room.layers[..lengths.layers.min(40)],
        bytes: &mut room.bytes[..lengths.bytes.min(40)],
    };
    let plan = replan::replan(&job, from, &fetched, onward, &mut lent);
    tell(rt, plan, lengths, &room)
}

fn check_case(rt: &impl Print, tables: &Tables, at: Places) -> io::Result<()> {
    let job = table::job_in(tables, at);
    let from = table::slot(tables, at.from);
    let rows = table::rows_in(tables, at);
    let list = FetchList {
        marks: table::bytes(tables, at.last),
        rows,
    };
    print::verdict_said(rt, checker::check_from(&job, from, &list))
}

fn plan_case(rt: &impl Print, tables: &Tables, at: Places) -> io::Result<()> {
    let job = table::job_in(tables, at);
    let lengths = lengths_in(tables, at.room);
    let mut room = nines();
    let mut lent = LentList {
        marks: &mut room.marks,
        slots: &mut room.slots,
        chunks: &mut room.chunks,
        layers: &mut room.layers,
        bytes: &mut room.bytes,
    };
    let plan = planner::plan(&job, &mut lent);
    tell(rt, plan, lengths, &room)
}

// The case of a line.
pub(crate) fn case(rt: &impl Print, text: &[u8]) -> io::Result<()> {
    let (name, numbers) = text.split_at(line::colon(text).min(text.len()));
    rt.write_all(name)?;
    let tables = table::tables_of(line::numbers_in(numbers.get(1..).unwrap_or(numbers)));
    let at = table::places_in(&tables);
    match tables.bytes[0] {
        0 => replan_case(rt, &tables, at)?,
        1 => check_case(rt, &tables, at)?,
        _ => plan_case(rt, &tables, at)?,
    }
    println!(rt;)
}
