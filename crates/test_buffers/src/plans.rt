// Plan files: refusals 1, 5, 7, 8 and 11, and the order of those that compete.
use crate::rooms::{Lengths, each, job_of, marks_said, written_said};
use core_prefix::prefix;
use fetch::{FetchList, LentList, Rows};
use std::io;

// Job A's plan, with so many of its slots, goes into room for so many bytes.
fn write_plan(
    rt: &impl Print,
    text: &str,
    film: u16,
    slots: usize,
    room: &mut [u8],
) -> io::Result<()> {
    let rows = Rows {
        slots: prefix(&[1, 1, 5], slots),
        chunks: &[2, 2, 3],
        layers: &[0, 1, 0],
        bytes: &[2, 1, 2],
    };
    let list = FetchList {
        marks: &[0, 3, 1],
        rows,
    };
    print!(rt; "{text}")?;
    written_said(rt, planfile::write_plan(&job_of(film), &list, room))
}

// A file is read into so much room.
fn read_plan(
    rt: &impl Print,
    text: &str,
    film: u16,
    file: &[u8],
    lengths: Lengths,
) -> io::Result<()> {
    let mut marks = [9u8; 4];
    let mut slots = [9u16; 4];
    let mut chunks = [9u16; 4];
    let mut layers = [9u8; 4];
    let mut bytes = [9u32; 4];
    let mut lent = LentList {
        marks: &mut marks[..lengths.marks.min(4)],
        slots: &mut slots[..lengths.slots.min(4)],
        chunks: &mut chunks[..lengths.chunks.min(4)],
        layers: &mut layers[..lengths.layers.min(4)],
        bytes: &mut bytes[..lengths.bytes.min(4)],
    };
    print!(rt; "{text}")?;
    match planfile::read_plan(&job_of(film), file, &mut lent) {
        Ok(n) => print!(rt; "rows {n}")?,
        Err(refusal) => print!(rt; "refused {}", refusal.number())?,
    }
    marks_said(rt, marks, layers)
}

pub(crate) fn files(rt: &impl Print) -> io::Result<()> {
    let mut file = [0u8; 50];
    write_plans(rt, &mut file)?;
    read_back(rt, &file)?;
    let few = Lengths {
        marks: 2,
        ..each(4)
    };
    read_plan(rt, "5 before 1: ", 501, b"", each(4))?;
    read_plan(rt, "1 before 11: ", 3, b"KP", few)
}

fn write_plans(rt: &impl Print, file: &mut [u8; 50]) -> io::Result<()> {
    write_plan(rt, "7 before 8: ", 2, 3, file)?;
    write_plan(rt, "8 before 11: ", 3, 2, &mut [])?;
    write_plan(rt, "no room for a byte: ", 3, 3, &mut file[..49])?;
    write_plan(rt, "", 3, 3, file)
}

fn read_back(rt: &impl Print, file: &[u8]) -> io::Result<()> {
    let all = each(4);
    let no_mark = Lengths { marks: 2, ..all };
    read_plan(rt, "", 3, file, all)?;
    read_plan(rt, "", 3, file, each(3))?;
    read_plan(rt, "no room for a mark: ", 3, file, no_mark)?;
    read_plan(rt, "for a slot: ", 3, file, Lengths { slots: 2, ..all })?;
    read_plan(rt, "for a chunk: ", 3, file, Lengths { chunks: 2, ..all })?;
    read_plan(rt, "for a layer: ", 3, file, Lengths { layers: 2, ..all })?;
    read_plan(rt, "for bytes: ", 3, file, Lengths { bytes: 2, ..all })
}
