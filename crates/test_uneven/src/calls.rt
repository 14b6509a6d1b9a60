// Job A with some SZs, handed to the writer of job files, the planner, the checker and the report:
// what each answers.
use core_prefix::prefix;
use fetch::{FetchList, LentList, Rows};
use job::{JobInput, Overrides, Programme};
use refusals::Refusal;
use std::io;

// Job A with these SZs.
pub(crate) fn job_a(overrides: Overrides<'_>) -> JobInput<'_> {
    JobInput {
        programme: Programme {
            chunks: 3,
            span: 2,
            delay: 2,
            limit: 2,
        },
        sizes: &[2, 1],
        overrides,
        forecast: &[3, 0, 1, 0, 2, 0],
    }
}

pub(crate) fn szs<'a>(chunks: &'a [u16], layers: &'a [u8], bytes: &'a [u32]) -> Overrides<'a> {
    Overrides {
        chunks,
        layers,
        bytes,
    }
}

fn write(job: &JobInput) -> Result<usize, Refusal> {
    let mut out = [0u8; 90];
    jobfile::write_job(job, &mut out)
}

fn plan(job: &JobInput) -> Result<usize, Refusal> {
    let mut marks = [0u8; 3];
    let mut slots = [0u16; 11];
    let mut chunks = [0u16; 11];
    let mut layers = [0u8; 11];
    let mut bytes = [0u32; 11];
    let mut lent = LentList {
        marks: &mut marks,
        slots: &mut slots,
        chunks: &mut chunks,
        layers: &mut layers,
        bytes: &mut bytes,
    };
    planner::plan(job, &mut lent).map(|plan| plan.rows)
}

// The list has a byte of chunk 2's base, in slot 1.
fn check(job: &JobInput) -> Result<usize, Refusal> {
    let rows = Rows {
        slots: &[1],
        chunks: &[2],
        layers: &[0],
        bytes: &[1],
    };
    let list = FetchList {
        marks: &[0, 1, 0],
        rows,
    };
    checker::check(job, &list).map(|verdict| verdict as usize)
}

fn report(job: &JobInput) -> Result<usize, Refusal> {
    let mut out = [0u8; 128];
    report::report(job, &mut out)
}

fn said(rt: &impl Print, word: &str, answer: Result<usize, Refusal>) -> io::Result<()> {
    match answer {
        Ok(n) => print!(rt; "{word} {n}"),
        Err(refusal) => print!(rt; "refused {}", refusal.number()),
    }
}

fn ask_job(rt: &impl Print, text: &str, job: &JobInput) -> io::Result<()> {
    print!(rt; "{text}: ")?;
    said(rt, "written", write(job))?;
    print!(rt; ", ")?;
    said(rt, "rows", plan(job))?;
    print!(rt; ", ")?;
    said(rt, "verdict", check(job))?;
    print!(rt; ", ")?;
    said(rt, "report", report(job))?;
    println!(rt;)
}

// Job A whole.
fn ask(rt: &impl Print, text: &str, overrides: Overrides) -> io::Result<()> {
    ask_job(rt, text, &job_a(overrides))
}

pub(crate) fn sizes(rt: &impl Print) -> io::Result<()> {
    ask(rt, "no SZ", szs(&[], &[], &[]))?;
    ask(rt, "chunk 2's base of 1", szs(&[2], &[0], &[1]))?;
    ask(rt, "two SZs", szs(&[2, 3], &[0, 1], &[1, 2]))
}

pub(crate) fn ways(rt: &impl Print) -> io::Result<()> {
    ask(rt, "chunk 1", szs(&[1], &[0], &[1]))?;
    ask(rt, "chunk 4", szs(&[4], &[0], &[1]))?;
    ask(rt, "layer 2", szs(&[2], &[2], &[1]))?;
    ask(rt, "twice", szs(&[2, 2], &[0, 0], &[1, 3]))?;
    ask(rt, "falling", szs(&[3, 2], &[0, 0], &[1, 1]))?;
    ask(rt, "no bytes", szs(&[2], &[0], &[0]))?;
    ask(rt, "too many bytes", szs(&[2], &[0], &[16777217]))?;
    ask(rt, "the layer's own", szs(&[2], &[0], &[2]))
}

pub(crate) fn halves(rt: &impl Print) -> io::Result<()> {
    ask(rt, "a chunk short", szs(&[], &[0], &[1]))?;
    ask(rt, "a layer short", szs(&[2], &[], &[1]))?;
    ask(rt, "bytes short", szs(&[2], &[0], &[]))?;
    ask(rt, "bytes over", szs(&[2], &[0], &[1, 1]))
}

// A bad SZ in job A, but with so many chunks, layers and slots handed.
fn bad(rt: &impl Print, text: &str, chunks: u16, layers: usize, slots: usize) -> io::Result<()> {
    let whole = job_a(szs(&[1], &[0], &[1]));
    let job = JobInput {
        programme: Programme {
            chunks,
            ..whole.programme
        },
        sizes: prefix(whole.sizes, layers),
        overrides: whole.overrides,
        forecast: prefix(whole.forecast, slots),
    };
    ask_job(rt, text, &job)
}

pub(crate) fn order(rt: &impl Print) -> io::Result<()> {
    bad(rt, "5 before 18", 501, 2, 6)?;
    bad(rt, "6 before 18", 3, 0, 6)?;
    bad(rt, "18 before 7", 3, 2, 5)
}
