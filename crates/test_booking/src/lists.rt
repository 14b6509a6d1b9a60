// Lists written by hand, booked on job A and released to it: each way to 19 and to 20.
use crate::print::{done_said, forecast_said};
use fetch::{FetchList, Rows};
use job::{Overrides, Programme};
use std::io;

const JOB_A: Programme = Programme {
    chunks: 3,
    span: 2,
    delay: 2,
    limit: 2,
};

const SIZES: [u32; 2] = [2, 1];

const EQUAL: Overrides = Overrides {
    chunks: &[],
    layers: &[],
    bytes: &[],
};

const FORECAST: [u32; 6] = [3, 0, 1, 0, 2, 0];

// A list of the verdict said.
fn book(rt: &impl Print, verdict: u8, list: &FetchList) -> io::Result<()> {
    let mut forecast = FORECAST;
    let n = list.rows.slots.len();
    print!(rt; "{n} rows of verdict {verdict}: ")?;
    done_said(
        rt,
        booking::book(JOB_A, &SIZES, &EQUAL, &mut forecast, list),
    )?;
    forecast_said(rt, &forecast)
}

// The plan's own list, with a mark of chunk 3.
fn book_own(rt: &impl Print, verdict: u8, mark: u8) -> io::Result<()> {
    let rows = Rows {
        slots: &[1, 1, 5],
        chunks: &[2, 2, 3],
        layers: &[0, 1, 0],
        bytes: &[2, 1, 2],
    };
    let list = FetchList {
        marks: &[0, 3, mark],
        rows,
    };
    book(rt, verdict, &list)
}

// The own list with its last row split.
fn book_split(rt: &impl Print, verdict: u8) -> io::Result<()> {
    let rows = Rows {
        slots: &[1, 1, 3, 5],
        chunks: &[2, 2, 3, 3],
        layers: &[0, 1, 0, 0],
        bytes: &[2, 1, 1, 1],
    };
    let list = FetchList {
        marks: &[0, 3, 1],
        rows,
    };
    book(rt, verdict, &list)
}

// A row by value.
#[derive(Clone, Copy)]
struct Row {
    slot: u16,
    chunk: u16,
    layer: u8,
    bytes: u32,
}

fn one_row(slot: u16, chunk: u16, layer: u8, bytes: u32) -> Row {
    Row {
        slot,
        chunk,
        layer,
        bytes,
    }
}

// One row, with a mark of chunk 2 and one of chunk 3.
fn book_one(rt: &impl Print, verdict: u8, second: u8, third: u8, row: Row) -> io::Result<()> {
    let rows = Rows {
        slots: &[row.slot],
        chunks: &[row.chunk],
        layers: &[row.layer],
        bytes: &[row.bytes],
    };
    let list = FetchList {
        marks: &[0, second, third],
        rows,
    };
    book(rt, verdict, &list)
}

fn book_none(rt: &impl Print, verdict: u8) -> io::Result<()> {
    let rows = Rows {
        slots: &[],
        chunks: &[],
        layers: &[],
        bytes: &[],
    };
    let list = FetchList {
        marks: &[0, 0, 0],
        rows,
    };
    book(rt, verdict, &list)
}

pub(crate) fn nineteen(rt: &impl Print) -> io::Result<()> {
    book_own(rt, 0, 1)?;
    book_none(rt, 0)?;
    book_one(rt, 1, 0, 0, one_row(0, 2, 0, 2))?;
    book_one(rt, 2, 0, 0, one_row(1, 2, 0, 1))?;
    book_one(rt, 3, 2, 0, one_row(1, 2, 1, 1))?;
    book_one(rt, 4, 0, 1, one_row(3, 3, 0, 2))?;
    book_one(rt, 5, 1, 0, one_row(5, 2, 0, 2))?;
    book_split(rt, 6)?;
    book_own(rt, 7, 3)
}

fn release(rt: &impl Print, text: &str, rows: &Rows) -> io::Result<()> {
    let mut forecast = FORECAST;
    print!(rt; "{text}: ")?;
    done_said(
        rt,
        booking::release(JOB_A, &SIZES, &EQUAL, &mut forecast, rows),
    )?;
    forecast_said(rt, &forecast)
}

// The own list and a row after it.
fn release_own(rt: &impl Print, text: &str, slot: u16, bytes: u32) -> io::Result<()> {
    let rows = Rows {
        slots: &[1, 1, 5, slot],
        chunks: &[2, 2, 3, 1],
        layers: &[0, 1, 0, 0],
        bytes: &[2, 1, 2, bytes],
    };
    release(rt, text, &rows)
}

fn release_one(rt: &impl Print, text: &str, slot: u16, bytes: u32) -> io::Result<()> {
    let rows = Rows {
        slots: &[slot],
        chunks: &[1],
        layers: &[0],
        bytes: &[bytes],
    };
    release(rt, text, &rows)
}

// Two rows in one slot and a byte in slot 1 between them.
fn release_three(rt: &impl Print, text: &str, slot: u16, some: u32, more: u32) -> io::Result<()> {
    let rows = Rows {
        slots: &[slot, 1, slot],
        chunks: &[1, 1, 1],
        layers: &[0, 0, 0],
        bytes: &[some, 1, more],
    };
    release(rt, text, &rows)
}

fn release_none(rt: &impl Print, text: &str) -> io::Result<()> {
    let rows = Rows {
        slots: &[],
        chunks: &[],
        layers: &[],
        bytes: &[],
    };
    release(rt, text, &rows)
}

// A chunk and a layer that the job doesn't have, and no bytes.
fn release_odd(rt: &impl Print, text: &str) -> io::Result<()> {
    let rows = Rows {
        slots: &[1, 6],
        chunks: &[9, 0],
        layers: &[9, 255],
        bytes: &[0, 5],
    };
    release(rt, text, &rows)
}

pub(crate) fn twenty(rt: &impl Print) -> io::Result<()> {
    release_none(rt, "no rows")?;
    release_odd(rt, "no rule is asked")?;
    release_own(rt, "a list never booked", 6, 5)?;
    release_own(rt, "a slot that isn't there after others", 7, 5)?;
    release_one(rt, "slot 0", 0, 0)?;
    release_one(rt, "slot 7", 7, 0)?;
    release_one(rt, "slot 65535", 65535, 1)
}

pub(crate) fn room(rt: &impl Print) -> io::Result<()> {
    release_one(rt, "16777216 bytes in slot 1", 1, 16777213)?;
    release_one(rt, "a byte more", 1, 16777214)?;
    release_three(rt, "16777216 bytes in slot 2", 2, 8388608, 8388608)?;
    release_three(rt, "a byte more", 2, 8388608, 8388609)?;
    release_three(rt, "more than 32 bits", 6, 4294967295, 4294967295)
}
