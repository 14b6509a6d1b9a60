// Plan files at the limit of 65,536 bytes.
use crate::files::read_case;
use crate::print::refused;
use core_prefix::prefix;
use fetch::{FetchList, LentList, Rows};
use job::{JobInput, Overrides, Programme};
use std::io;
use std::rt::Files;

// A job of so many chunks, due in slots 1, 2, ..
fn job_of(chunks: u16) -> JobInput<'static> {
    let overrides = Overrides {
        chunks: &[],
        layers: &[],
        bytes: &[],
    };
    JobInput {
        programme: Programme {
            chunks,
            span: 1,
            delay: 1,
            limit: 0,
        },
        sizes: &[1],
        overrides,
        forecast: prefix(&[1; 8], chunks as usize),
    }
}

// Writes a plan of so many chunks and rows, and answers how many bytes it has; 0 for a refusal.
fn write(rt: &impl Print, chunks: u16, rows: usize, out: &mut [u8; 65537]) -> io::Result<usize> {
    let rows = Rows {
        slots: prefix(&[65535; 5955], rows),
        chunks: prefix(&[1; 5955], rows),
        layers: prefix(&[7; 5955], rows),
        bytes: prefix(&[4294967295; 5955], rows),
    };
    let list = FetchList {
        marks: prefix(&[255; 8], chunks as usize),
        rows,
    };
    match planfile::write_plan(&job_of(chunks), &list, out) {
        Ok(n) => {
            println!(rt; "written {n}")?;
            Ok(n)
        }
        Err(refusal) => {
            refused(rt, refusal)?;
            Ok(0)
        }
    }
}

fn read(rt: &impl Print, chunks: u16, file: &[u8]) -> io::Result<()> {
    let mut marks = [0u8; 8];
    let mut slots = [0u16; 5955];
    let mut row_chunks = [0u16; 5955];
    let mut layers = [0u8; 5955];
    let mut bytes = [0u32; 5955];
    let mut lent = LentList {
        marks: &mut marks,
        slots: &mut slots,
        chunks: &mut row_chunks,
        layers: &mut layers,
        bytes: &mut bytes,
    };
    match planfile::read_plan(&job_of(chunks), file, &mut lent) {
        Ok(n) => println!(rt; "rows {n}"),
        Err(refusal) => refused(rt, refusal),
    }
}

fn written_and_read(rt: &impl Print, chunks: u16, rows: usize) -> io::Result<()> {
    let mut file = [0u8; 65537];
    let n = write(rt, chunks, rows, &mut file)?;
    read(rt, chunks, prefix(&file, n))
}

// The file of 6 chunks and 5,955 rows, which no call writes.
fn too_long(rt: &(impl Files + Print)) -> io::Result<()> {
    let mut file = [0u8; 65537];
    let n = read_case(rt, b'q', 0, &mut file)?;
    read(rt, 6, prefix(&file, n))
}

pub(crate) fn plan_files(rt: &(impl Files + Print)) -> io::Result<()> {
    written_and_read(rt, 8, 5954)?;
    written_and_read(rt, 6, 5954)?;
    written_and_read(rt, 6, 5955)?;
    too_long(rt)
}
