// The room lent, on job A, whose whole walk finds three rows, and the refusals in their order.
use crate::print::{list_said, said};
use core_prefix::prefix;
use fetch::{FetchList, LentList, Rows};
use job::{JobInput, Overrides, Programme};
use std::io;

// How much is handed: chunks, layers and slots of job A, SZs of chunk 1, which it has none of, and
// how much of each slice is lent.
#[derive(Clone, Copy)]
struct Lengths {
    chunks: u16,
    layers: usize,
    uneven: usize,
    slots: usize,
    marks: usize,
    row_slots: usize,
    row_chunks: usize,
    row_layers: usize,
    row_bytes: usize,
}

fn job_of(lengths: Lengths) -> JobInput<'static> {
    let overrides = Overrides {
        chunks: prefix(&[1], lengths.uneven),
        layers: prefix(&[0], lengths.uneven),
        bytes: prefix(&[1], lengths.uneven),
    };
    JobInput {
        programme: Programme {
            chunks: lengths.chunks,
            span: 2,
            delay: 2,
            limit: 2,
        },
        sizes: prefix(&[2, 1], lengths.layers),
        overrides,
        forecast: prefix(&[3, 0, 1, 0, 2, 0], lengths.slots),
    }
}

// Slices of 7s, so that what is left as it was can be told.
fn ask(rt: &impl Print, text: &str, lengths: Lengths) -> io::Result<()> {
    let mut marks = [7u8; 4];
    let mut slots = [7u16; 4];
    let mut chunks = [7u16; 4];
    let mut layers = [7u8; 4];
    let mut bytes = [7u32; 4];
    let mut lent = LentList {
        marks: &mut marks[..lengths.marks.min(4)],
        slots: &mut slots[..lengths.row_slots.min(4)],
        chunks: &mut chunks[..lengths.row_chunks.min(4)],
        layers: &mut layers[..lengths.row_layers.min(4)],
        bytes: &mut bytes[..lengths.row_bytes.min(4)],
    };
    let found = search::search(&job_of(lengths), 100, &mut lent);
    print!(rt; "{text}: ")?;
    said(rt, found)?;
    let rows = Rows {
        slots: &slots,
        chunks: &chunks,
        layers: &layers,
        bytes: &bytes,
    };
    let list = FetchList {
        marks: &marks,
        rows,
    };
    list_said(rt, &list)
}

// Job A whole, with so much lent of each slice.
fn each(n: usize) -> Lengths {
    Lengths {
        chunks: 3,
        layers: 2,
        uneven: 0,
        slots: 6,
        marks: n,
        row_slots: n,
        row_chunks: n,
        row_layers: n,
        row_bytes: n,
    }
}

pub(crate) fn room(rt: &impl Print) -> io::Result<()> {
    println!(rt; "room")?;
    let more = each(4);
    ask(rt, "just enough", each(3))?;
    ask(rt, "more than enough", more)?;
    ask(rt, "a mark short", Lengths { marks: 2, ..more })?;
    let slots = Lengths {
        row_slots: 2,
        ..more
    };
    ask(rt, "a slot short", slots)?;
    let chunks = Lengths {
        row_chunks: 2,
        ..more
    };
    ask(rt, "a chunk short", chunks)?;
    let layers = Lengths {
        row_layers: 2,
        ..more
    };
    ask(rt, "a layer short", layers)?;
    let bytes = Lengths {
        row_bytes: 2,
        ..more
    };
    ask(rt, "bytes short", bytes)
}

// A job wrong in what comes before, each later refusal waiting behind it, and too little lent.
fn wrong(
    rt: &impl Print,
    text: &str,
    chunks: u16,
    layers: usize,
    uneven: usize,
    slots: usize,
) -> io::Result<()> {
    let lengths = Lengths {
        chunks,
        layers,
        uneven,
        slots,
        ..each(2)
    };
    ask(rt, text, lengths)
}

pub(crate) fn order(rt: &impl Print) -> io::Result<()> {
    println!(rt; "order")?;
    wrong(rt, "5 first", 501, 0, 1, 5)?;
    wrong(rt, "then 6", 3, 0, 1, 5)?;
    wrong(rt, "then 18", 3, 2, 1, 5)?;
    wrong(rt, "then 7", 3, 2, 0, 5)?;
    wrong(rt, "then 11", 3, 2, 0, 6)
}
