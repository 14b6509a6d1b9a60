// The order of the refusals: a row in slot 7, for 19 and 20, on job A or a part of it, booked and
// released.
use crate::print::done_said;
use core_prefix::prefix;
use fetch::{FetchList, Rows};
use job::{Overrides, Programme};
use std::io;

// How much is handed: chunks, layers and slots of job A, SZs of chunk 1, which it has none of,
// marks, and of the row its chunk, layer and bytes.
#[derive(Clone, Copy)]
struct Lengths {
    chunks: u16,
    layers: usize,
    uneven: usize,
    slots: usize,
    marks: usize,
    chunk: usize,
    layer: usize,
    bytes: usize,
}

fn job_of(chunks: u16) -> Programme {
    Programme {
        chunks,
        span: 2,
        delay: 2,
        limit: 2,
    }
}

fn overrides_of(lengths: Lengths) -> Overrides<'static> {
    Overrides {
        chunks: prefix(&[1], lengths.uneven),
        layers: prefix(&[0], lengths.uneven),
        bytes: prefix(&[1], lengths.uneven),
    }
}

fn rows_of(lengths: Lengths) -> Rows<'static> {
    Rows {
        slots: &[7],
        chunks: prefix(&[2], lengths.chunk),
        layers: prefix(&[0], lengths.layer),
        bytes: prefix(&[2], lengths.bytes),
    }
}

fn book(rt: &impl Print, lengths: Lengths) -> io::Result<()> {
    let mut forecast = [3u32, 0, 1, 0, 2, 0];
    let list = FetchList {
        marks: prefix(&[0, 1, 0], lengths.marks),
        rows: rows_of(lengths),
    };
    done_said(
        rt,
        booking::book(
            job_of(lengths.chunks),
            prefix(&[2, 1], lengths.layers),
            &overrides_of(lengths),
            &mut forecast[..lengths.slots.min(6)],
            &list,
        ),
    )
}

fn release(rt: &impl Print, lengths: Lengths) -> io::Result<()> {
    let mut forecast = [3u32, 0, 1, 0, 2, 0];
    done_said(
        rt,
        booking::release(
            job_of(lengths.chunks),
            prefix(&[2, 1], lengths.layers),
            &overrides_of(lengths),
            &mut forecast[..lengths.slots.min(6)],
            &rows_of(lengths),
        ),
    )
}

fn both(rt: &impl Print, text: &str, lengths: Lengths) -> io::Result<()> {
    print!(rt; "{text}: ")?;
    book(rt, lengths)?;
    print!(rt; ", ")?;
    release(rt, lengths)?;
    println!(rt;)
}

// The row's chunk is not handed, and a mark too few.
fn short(
    rt: &impl Print,
    text: &str,
    chunks: u16,
    layers: usize,
    uneven: usize,
    slots: usize,
) -> io::Result<()> {
    let lengths = Lengths {
        chunks,
        layers,
        uneven,
        slots,
        marks: 2,
        chunk: 0,
        layer: 1,
        bytes: 1,
    };
    both(rt, text, lengths)
}

// The whole job A.
fn whole(rt: &impl Print, text: &str, marks: usize, layer: usize, bytes: usize) -> io::Result<()> {
    let lengths = Lengths {
        chunks: 3,
        layers: 2,
        uneven: 0,
        slots: 6,
        marks,
        chunk: 1,
        layer,
        bytes,
    };
    both(rt, text, lengths)
}

pub(crate) fn order(rt: &impl Print) -> io::Result<()> {
    short(rt, "5 first", 501, 0, 1, 5)?;
    short(rt, "then 6", 3, 0, 1, 5)?;
    short(rt, "then 18", 3, 2, 1, 5)?;
    short(rt, "then 7", 3, 2, 0, 5)?;
    short(rt, "then 8", 3, 2, 0, 6)?;
    whole(rt, "8 for a layer", 3, 0, 1)?;
    whole(rt, "8 for bytes", 3, 1, 0)?;
    whole(rt, "8 for a mark in booking alone", 2, 1, 1)?;
    whole(rt, "then 19 and 20", 3, 1, 1)
}
