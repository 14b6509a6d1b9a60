// The room in the caller's slices, on job A with a limit of 4, so that two chunks may be
// held and the work slice is used; and the refusals in their order.
use crate::cases::WORK;
use crate::print::{list_said, said};
use core_prefix::prefix;
use fetch::{FetchList, LentList, Rows};
use job::{JobInput, Overrides, Programme, ROWS};
use std::io;

// How much is handed over: chunks, layers and slots of the job, SZs of chunk 1, which it has none
// of, and how long each slice of the caller's is.
#[derive(Clone, Copy)]
struct Lengths {
    chunks: u16,
    layers: usize,
    uneven: usize,
    slots: usize,
    work: usize,
    marks: usize,
    row_slots: usize,
    row_chunks: usize,
    row_layers: usize,
    row_bytes: usize,
}

fn job_of(lengths: Lengths) -> JobInput<'static> {
    let overrides = Overrides {
        chunks: prefix(&[1], lengths.uneven),
        layers: prefix(&[0], lengths.uneven),
        bytes: prefix(&[1], lengths.uneven),
    };
    JobInput {
        programme: Programme {
            chunks: lengths.chunks,
            span: 2,
            delay: 2,
            limit: 4,
        },
        sizes: prefix(&[2, 1], lengths.layers),
        overrides,
        forecast: prefix(&[3, 0, 1, 0, 2, 0], lengths.slots),
    }
}

// Slices of 7s, so that what is left as it was can be told. Of the work slice only that it was
// written to is said: what it holds means nothing.
fn ask(rt: &impl Print, text: &str, lengths: Lengths) -> io::Result<()> {
    let mut work = [7u64; WORK];
    let mut marks = [7u8; 4];
    let mut slots = [7u16; ROWS];
    let mut chunks = [7u16; ROWS];
    let mut layers = [7u8; ROWS];
    let mut bytes = [7u32; ROWS];
    let mut lent = LentList {
        marks: &mut marks[..lengths.marks.min(4)],
        slots: &mut slots[..lengths.row_slots.min(ROWS)],
        chunks: &mut chunks[..lengths.row_chunks.min(ROWS)],
        layers: &mut layers[..lengths.row_layers.min(ROWS)],
        bytes: &mut bytes[..lengths.row_bytes.min(ROWS)],
    };
    let lent_work = &mut work[..lengths.work.min(WORK)];
    let found = most::most_pictures(&job_of(lengths), 9, lent_work, &mut lent);
    print!(rt; "{text}: ")?;
    said(rt, found)?;
    let rows = Rows {
        slots: &slots[..4],
        chunks: &chunks[..4],
        layers: &layers[..4],
        bytes: &bytes[..4],
    };
    let list = FetchList {
        marks: &marks,
        rows,
    };
    list_said(rt, &list)?;
    if work.iter().any(|&x| x != 7) {
        print!(rt; ", work written")?;
    }
    println!(rt;)
}

// The job whole, and room for any plan of it.
const WHOLE: Lengths = Lengths {
    chunks: 3,
    layers: 2,
    uneven: 0,
    slots: 6,
    work: WORK,
    marks: 4,
    row_slots: ROWS,
    row_chunks: ROWS,
    row_layers: ROWS,
    row_bytes: ROWS,
};

pub(crate) fn room(rt: &impl Print) -> io::Result<()> {
    println!(rt; "room")?;
    let enough = Lengths {
        work: 2004,
        marks: 3,
        ..WHOLE
    };
    ask(rt, "just enough", enough)?;
    ask(rt, "more than enough", WHOLE)?;
    let work = Lengths {
        work: 2003,
        ..WHOLE
    };
    ask(rt, "work short", work)?;
    ask(rt, "a mark short", Lengths { marks: 2, ..WHOLE })?;
    short_rows(rt)
}

fn short_rows(rt: &impl Print) -> io::Result<()> {
    let slots = Lengths {
        row_slots: 5598,
        ..WHOLE
    };
    let chunks = Lengths {
        row_chunks: 5598,
        ..WHOLE
    };
    let layers = Lengths {
        row_layers: 5598,
        ..WHOLE
    };
    let bytes = Lengths {
        row_bytes: 5598,
        ..WHOLE
    };
    ask(rt, "a slot short", slots)?;
    ask(rt, "a chunk short", chunks)?;
    ask(rt, "a layer short", layers)?;
    ask(rt, "bytes short", bytes)
}

// A job wrong in what comes before, each later refusal waiting behind it, and too little room.
fn wrong(
    rt: &impl Print,
    text: &str,
    chunks: u16,
    layers: usize,
    uneven: usize,
    slots: usize,
) -> io::Result<()> {
    let lengths = Lengths {
        chunks,
        layers,
        uneven,
        slots,
        work: 2,
        marks: 2,
        row_slots: 2,
        row_chunks: 2,
        row_layers: 2,
        row_bytes: 2,
    };
    ask(rt, text, lengths)
}

pub(crate) fn order(rt: &impl Print) -> io::Result<()> {
    println!(rt; "order")?;
    wrong(rt, "5 first", 501, 0, 1, 5)?;
    wrong(rt, "then 6", 3, 0, 1, 5)?;
    wrong(rt, "then 18", 3, 2, 1, 5)?;
    wrong(rt, "then 7", 3, 2, 0, 5)?;
    wrong(rt, "then 11", 3, 2, 0, 6)
}
