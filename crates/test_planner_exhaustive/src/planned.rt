// The planner's own answer for a job, against the marks found by search: the same marks, the counts
// that are theirs, the rows of their own list, a list that the checker passes and that is in
// playing order.
use crate::film::Film;
use crate::{bits, film, lists, marks, tally};
use core_prefix::prefix;
use fetch::{FetchList, LentList, Rows};
use job::{JobInput, Overrides};
use planner::Planned;
use refusals::Refusal;
use std::cmp::Ordering;

// A film's numbers as the calls take them: the sizes of chunk 0, the SZs and the forecast.
#[derive(Clone, Copy)]
struct Numbers {
    sizes: [u32; 4],
    forecast: [u32; 4],
    chunks: [u16; 8],
    layers: [u8; 8],
    bytes: [u32; 8],
    uneven: usize,
}

// A plan has at most a row for each layer of each chunk and for each slot but the last.
#[derive(Clone, Copy)]
struct Room {
    marks: [u8; 3],
    slots: [u16; 15],
    chunks: [u16; 15],
    layers: [u8; 15],
    bytes: [u32; 15],
}

// The numbers of a job of equal chunks.
fn equal_numbers(f: Film) -> Numbers {
    Numbers {
        sizes: [
            film::size(f, 0),
            film::size(f, 1),
            film::size(f, 2),
            film::size(f, 3),
        ],
        forecast: [
            bits::digit(f.forecast, 0),
            bits::digit(f.forecast, 1),
            bits::digit(f.forecast, 2),
            bits::digit(f.forecast, 3),
        ],
        chunks: [0; 8],
        layers: [0; 8],
        bytes: [0; 8],
        uneven: 0,
    }
}

// Whether a part of a later chunk has an SZ: its size is not chunk 0's.
fn is_uneven(f: Film, part: u16) -> bool {
    part / 4 < f.chunks && film::size(f, part) != film::size(f, part % 4)
}

// The numbers of a job, with its SZs.
fn numbers_of(f: Film) -> Numbers {
    let mut numbers = equal_numbers(f);
    for part in 4..12 {
        let n = numbers.uneven;
        if is_uneven(f, part) && n < 8 {
            numbers.chunks[n] = 1 + part / 4;
            numbers.layers[n] = (part % 4) as u8;
            numbers.bytes[n] = film::size(f, part);
            numbers.uneven = n + 1;
        }
    }
    numbers
}

fn job_of(f: Film, numbers: &Numbers) -> JobInput<'_> {
    let n = numbers.uneven;
    JobInput {
        programme: film::programme(f),
        sizes: prefix(&numbers.sizes, film::layers(f)),
        overrides: Overrides {
            chunks: prefix(&numbers.chunks, n),
            layers: prefix(&numbers.layers, n),
            bytes: prefix(&numbers.bytes, n),
        },
        forecast: prefix(&numbers.forecast, film::last_due(f)),
    }
}

fn empty_room() -> Room {
    Room {
        marks: [0; 3],
        slots: [0; 15],
        chunks: [0; 15],
        layers: [0; 15],
        bytes: [0; 15],
    }
}

fn plan_into(job: &JobInput, room: &mut Room) -> Result<Planned, Refusal> {
    let mut lent = LentList {
        marks: &mut room.marks,
        slots: &mut room.slots,
        chunks: &mut room.chunks,
        layers: &mut room.layers,
        bytes: &mut room.bytes,
    };
    planner::plan(job, &mut lent)
}

// What of the planner's answer is as it should be, as flags of the tally. Playing order is asked of
// the own list, whose rows the planner's are to be.
pub(crate) fn compare(f: Film, found: u32, own: u32) -> u32 {
    let numbers = numbers_of(f);
    let ordered = lists::in_order(found, own);
    tally::flag_if(tally::ORDERED, ordered) | plan(f, &job_of(f, &numbers), found, own)
}

fn plan(f: Film, job: &JobInput, found: u32, own: u32) -> u32 {
    let mut room = empty_room();
    let Ok(planned) = plan_into(job, &mut room) else {
        return 0;
    };
    let n = planned.rows;
    let list = FetchList {
        marks: prefix(&room.marks, f.chunks as usize),
        rows: Rows {
            slots: prefix(&room.slots, n),
            chunks: prefix(&room.chunks, n),
            layers: prefix(&room.layers, n),
            bytes: prefix(&room.bytes, n),
        },
    };
    let passes = checker::check(job, &list) == Ok(0);
    tally::flag_if(tally::SAME_MARKS, marks_as(room.marks, found))
        | tally::flag_if(tally::SAME_COUNTS, counts_as(planned.counts, found))
        | tally::flag_if(tally::SAME_ROWS, are_rows(own, &list.rows))
        | tally::flag_if(tally::PASSED, passes)
}

// How many bases the planner carries of a job of equal chunks; 999 for a refusal.
pub(crate) fn bases(f: Film) -> u32 {
    let numbers = equal_numbers(f);
    let mut room = empty_room();
    match plan_into(&job_of(f, &numbers), &mut room) {
        Ok(planned) => u32::from(planned.counts[0]),
        Err(_) => 999,
    }
}

// Whether the mark bytes are those of marks in one word.
fn marks_as(marks: [u8; 3], found: u32) -> bool {
    u32::from(marks[0]) == bits::digit(found, 0)
        && u32::from(marks[1]) == bits::digit(found, 1)
        && u32::from(marks[2]) == bits::digit(found, 2)
}

fn counts_as(counts: [u16; 4], marks: u32) -> bool {
    let theirs = [
        marks::count(marks, 0) as u16,
        marks::count(marks, 1) as u16,
        marks::count(marks, 2) as u16,
        marks::count(marks, 3) as u16,
    ];
    planner::compare(counts, theirs) == Ordering::Equal
}

// Whether row r is that of a cell: its slot, chunk and layer, with all its bytes.
fn is_row(list: u32, cell: u16, rows: &Rows, r: usize) -> bool {
    let bytes = lists::in_slot(list, cell / 12, cell % 12);
    rows.slots.get(r) == Some(&(1 + cell / 12 % 4))
        && rows.chunks.get(r) == Some(&(1 + cell / 4 % 3))
        && rows.layers.get(r) == Some(&((cell % 4) as u8))
        && rows.bytes.get(r) == Some(&bytes)
}

// "One row per slot, chunk and layer", handed by slot, chunk, layer: whether the rows are those of
// the list, one for each cell 12t + 4i + n with bytes of layer n of chunk i in slot t, and no
// others.
fn are_rows(list: u32, rows: &Rows) -> bool {
    let mut r: usize = 0;
    for cell in 0..48 {
        if 0 < lists::in_slot(list, cell / 12, cell % 12) {
            if !is_row(list, cell, rows, r) {
                return false;
            }
            r += 1;
        }
    }
    r == rows.slots.len()
}
