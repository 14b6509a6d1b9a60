// The checker's lengths: marks too few or too many and fields cut short are refused by 8, and 5 and
// 6 come before it.
use crate::print::refused;
use core_prefix::prefix;
use fetch::{FetchList, Rows};
use job::{JobInput, Overrides, Programme};
use std::io;

// How many chunks and layers the job has, and how much of the list is handed: marks, and of the
// three rows the chunks, layers and bytes.
#[derive(Clone, Copy)]
struct Lengths {
    film: u16,
    sizes: usize,
    marks: usize,
    chunks: usize,
    layers: usize,
    bytes: usize,
}

// Job A and its own list.
const WHOLE: Lengths = Lengths {
    film: 3,
    sizes: 2,
    marks: 3,
    chunks: 3,
    layers: 3,
    bytes: 3,
};

fn check(rt: &impl Print, text: &str, lengths: Lengths) -> io::Result<()> {
    let overrides = Overrides {
        chunks: &[],
        layers: &[],
        bytes: &[],
    };
    let job = JobInput {
        programme: Programme {
            chunks: lengths.film,
            span: 2,
            delay: 2,
            limit: 2,
        },
        sizes: prefix(&[2, 1], lengths.sizes),
        overrides,
        forecast: &[3, 0, 1, 0, 2, 0],
    };
    let rows = Rows {
        slots: &[1, 1, 5],
        chunks: prefix(&[2, 2, 3], lengths.chunks),
        layers: prefix(&[0, 1, 0], lengths.layers),
        bytes: prefix(&[2, 1, 2], lengths.bytes),
    };
    let list = FetchList {
        marks: prefix(&[0, 3, 1, 0], lengths.marks),
        rows,
    };
    print!(rt; "{text}")?;
    match checker::check(&job, &list) {
        Ok(verdict) => println!(rt; "verdict {verdict}"),
        Err(refusal) => refused(rt, refusal),
    }
}

pub(crate) fn every_length(rt: &impl Print) -> io::Result<()> {
    check(rt, "", WHOLE)?;
    check(rt, "a mark too few: ", Lengths { marks: 2, ..WHOLE })?;
    check(rt, "a mark too many: ", Lengths { marks: 4, ..WHOLE })?;
    check(rt, "a chunk short: ", Lengths { chunks: 2, ..WHOLE })?;
    check(rt, "a layer short: ", Lengths { layers: 2, ..WHOLE })?;
    check(rt, "bytes short: ", Lengths { bytes: 2, ..WHOLE })?;
    let few = Lengths { marks: 2, ..WHOLE };
    check(rt, "5 before 8: ", Lengths { film: 501, ..few })?;
    check(rt, "6 before 8: ", Lengths { sizes: 0, ..few })
}
