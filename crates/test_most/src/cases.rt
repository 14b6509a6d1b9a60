// Films by the line: with no pass, then with more than any of them takes.
use crate::print::{list_said, said};
use core_prefix::prefix;
use fetch::{FetchList, LentList, Rows};
use job::{JobInput, Overrides, Programme, ROWS};
use std::io;

// Numbers of the work slice for a film of up to four chunks.
pub(crate) const WORK: usize = 2505;

fn try_passes(rt: &impl Print, job: &JobInput, passes: u32) -> io::Result<()> {
    let mut work = [0u64; WORK];
    let mut marks = [0u8; 4];
    let mut slots = [0u16; ROWS];
    let mut chunks = [0u16; ROWS];
    let mut layers = [0u8; ROWS];
    let mut bytes = [0u32; ROWS];
    let mut lent = LentList {
        marks: &mut marks,
        slots: &mut slots,
        chunks: &mut chunks,
        layers: &mut layers,
        bytes: &mut bytes,
    };
    let found = most::most_pictures(job, passes, &mut work, &mut lent);
    print!(rt; "passes {passes}: ")?;
    said(rt, found)?;
    let n = found.map_or(0, |found| found.rows);
    let rows = Rows {
        slots: prefix(&slots, n),
        chunks: prefix(&chunks, n),
        layers: prefix(&layers, n),
        bytes: prefix(&bytes, n),
    };
    let list = FetchList {
        marks: prefix(&marks, job.programme.chunks as usize),
        rows,
    };
    list_said(rt, &list)?;
    println!(rt;)
}

fn both(rt: &impl Print, text: &str, job: &JobInput) -> io::Result<()> {
    println!(rt; "{text}")?;
    try_passes(rt, job, 0)?;
    try_passes(rt, job, 9)
}

pub(crate) fn job_a(rt: &impl Print) -> io::Result<()> {
    let job = JobInput {
        programme: Programme {
            chunks: 3,
            span: 2,
            delay: 2,
            limit: 2,
        },
        sizes: &[2, 1],
        overrides: Overrides {
            chunks: &[],
            layers: &[],
            bytes: &[],
        },
        forecast: &[3, 0, 1, 0, 2, 0],
    };
    both(rt, "job A", &job)
}

// The plan keeps the last chunk and no other; the first two can be shown.
pub(crate) fn poor(rt: &impl Print) -> io::Result<()> {
    let job = JobInput {
        programme: Programme {
            chunks: 3,
            span: 1,
            delay: 1,
            limit: 2,
        },
        sizes: &[1],
        overrides: Overrides {
            chunks: &[3],
            layers: &[0],
            bytes: &[2],
        },
        forecast: &[1, 1, 0],
    };
    both(rt, "poor plan", &job)
}

// In playing order one picture, in another order two.
pub(crate) fn in_any_order(rt: &impl Print) -> io::Result<()> {
    let job = JobInput {
        programme: Programme {
            chunks: 2,
            span: 1,
            delay: 2,
            limit: 1,
        },
        sizes: &[1],
        overrides: Overrides {
            chunks: &[2],
            layers: &[0],
            bytes: &[3],
        },
        forecast: &[3, 1, 1],
    };
    both(rt, "another order helps", &job)
}

// The bound in playing order is 3 until a pass lowers it to 2.
pub(crate) fn lowered(rt: &impl Print) -> io::Result<()> {
    let job = JobInput {
        programme: Programme {
            chunks: 4,
            span: 1,
            delay: 2,
            limit: 2,
        },
        sizes: &[1],
        overrides: Overrides {
            chunks: &[2, 4],
            layers: &[0, 0],
            bytes: &[3, 2],
        },
        forecast: &[3, 0, 1, 0, 0],
    };
    both(rt, "bound lowered", &job)
}

// No chunk may be held: each has its due slot alone.
pub(crate) fn none_held(rt: &impl Print) -> io::Result<()> {
    let job = JobInput {
        programme: Programme {
            chunks: 3,
            span: 1,
            delay: 1,
            limit: 0,
        },
        sizes: &[2],
        overrides: Overrides {
            chunks: &[2],
            layers: &[0],
            bytes: &[1],
        },
        forecast: &[1, 1, 2],
    };
    both(rt, "none held", &job)
}

// Two layers: the refinements follow document 01's way over the set found.
pub(crate) fn refined(rt: &impl Print) -> io::Result<()> {
    let job = JobInput {
        programme: Programme {
            chunks: 3,
            span: 1,
            delay: 1,
            limit: 2,
        },
        sizes: &[1, 1],
        overrides: Overrides {
            chunks: &[3],
            layers: &[0],
            bytes: &[3],
        },
        forecast: &[2, 1, 0],
    };
    both(rt, "two layers", &job)
}
