// A job by the line, for every budget up to the walk's length and one more.
use crate::print::{list_said, said};
use core_prefix::prefix;
use fetch::{FetchList, LentList, Rows};
use job::{JobInput, Overrides, Programme};
use std::io;

// One budget; the steps taken are handed back.
fn try_budget(rt: &impl Print, job: &JobInput, budget: u32) -> io::Result<u32> {
    let mut marks = [0u8; 4];
    let mut slots = [0u16; 24];
    let mut chunks = [0u16; 24];
    let mut layers = [0u8; 24];
    let mut bytes = [0u32; 24];
    let mut lent = LentList {
        marks: &mut marks,
        slots: &mut slots,
        chunks: &mut chunks,
        layers: &mut layers,
        bytes: &mut bytes,
    };
    let found = search::search(job, budget, &mut lent);
    print!(rt; "budget {budget}: ")?;
    said(rt, found)?;
    let n = found.map_or(0, |found| found.rows);
    let rows = Rows {
        slots: prefix(&slots, n),
        chunks: prefix(&chunks, n),
        layers: prefix(&layers, n),
        bytes: prefix(&bytes, n),
    };
    let list = FetchList {
        marks: prefix(&marks, job.programme.chunks as usize),
        rows,
    };
    list_said(rt, &list)?;
    Ok(found.map_or(0, |found| found.steps))
}

// The whole walk, within the largest budget, then every budget up to its length and one more; no
// walk here has more than 30 steps.
fn every_budget(rt: &impl Print, job: &JobInput) -> io::Result<()> {
    let length = try_budget(rt, job, u32::MAX)?;
    for budget in 0..length.saturating_add(2).min(32) {
        try_budget(rt, job, budget)?;
    }
    Ok(())
}

pub(crate) fn job_a(rt: &impl Print) -> io::Result<()> {
    println!(rt; "job A")?;
    let job = JobInput {
        programme: Programme {
            chunks: 3,
            span: 2,
            delay: 2,
            limit: 2,
        },
        sizes: &[2, 1],
        overrides: Overrides {
            chunks: &[],
            layers: &[],
            bytes: &[],
        },
        forecast: &[3, 0, 1, 0, 2, 0],
    };
    every_budget(rt, &job)
}

// The first six steps find one base, document 01's, and the whole walk two.
pub(crate) fn uneven(rt: &impl Print) -> io::Result<()> {
    println!(rt; "uneven")?;
    let job = JobInput {
        programme: Programme {
            chunks: 3,
            span: 1,
            delay: 2,
            limit: 1,
        },
        sizes: &[2],
        overrides: Overrides {
            chunks: &[2, 3],
            layers: &[0, 0],
            bytes: &[1, 3],
        },
        forecast: &[4, 1, 1, 0],
    };
    every_budget(rt, &job)
}

// Two layers, and a limit that binds.
pub(crate) fn four(rt: &impl Print) -> io::Result<()> {
    println!(rt; "four chunks")?;
    let job = JobInput {
        programme: Programme {
            chunks: 4,
            span: 1,
            delay: 1,
            limit: 1,
        },
        sizes: &[2, 1],
        overrides: Overrides {
            chunks: &[2, 3, 4],
            layers: &[0, 0, 0],
            bytes: &[1, 3, 3],
        },
        forecast: &[3, 2, 2, 1],
    };
    every_budget(rt, &job)
}
