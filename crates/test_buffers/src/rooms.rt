// What the tests hand over and lend, and what they say of it.
use core_prefix::prefix;
use job::{JobInput, Overrides, Programme};
use refusals::Refusal;
use std::io;

// Job A, but of so many chunks, layers and slots: of 3 chunks, 2 layers and 6 slots it is job A, of
// 2 chunks the forecast has slots past the last due one, of 501 it is refused by 5.
pub(crate) fn job_part(chunks: u16, layers: usize, slots: usize) -> JobInput<'static> {
    let overrides = Overrides {
        chunks: &[],
        layers: &[],
        bytes: &[],
    };
    JobInput {
        programme: Programme {
            chunks,
            span: 2,
            delay: 2,
            limit: 2,
        },
        sizes: prefix(&[2, 1, 1, 1, 1], layers),
        overrides,
        forecast: prefix(&[3, 0, 1, 0, 2, 0], slots),
    }
}

pub(crate) fn job_of(chunks: u16) -> JobInput<'static> {
    job_part(chunks, 2, 6)
}

// How much of a room for marks and rows is lent, at most 4 of each.
#[derive(Clone, Copy)]
pub(crate) struct Lengths {
    pub marks: usize,
    pub slots: usize,
    pub chunks: usize,
    pub layers: usize,
    pub bytes: usize,
}

// So much of each.
pub(crate) fn each(n: usize) -> Lengths {
    Lengths {
        marks: n,
        slots: n,
        chunks: n,
        layers: n,
        bytes: n,
    }
}

pub(crate) fn written_said(rt: &impl Print, written: Result<usize, Refusal>) -> io::Result<()> {
    match written {
        Ok(n) => println!(rt; "written {n}"),
        Err(refusal) => println!(rt; "refused {}", refusal.number()),
    }
}

// Numbers of the lent slices after a call.
pub(crate) fn marks_said(rt: &impl Print, marks: [u8; 4], layers: [u8; 4]) -> io::Result<()> {
    let [_, mark, _, last_mark] = marks;
    let [_, layer, _, last_layer] = layers;
    println!(rt; ", then {mark} {last_mark} {layer} {last_layer}")
}
