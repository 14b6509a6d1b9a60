// Room for job A's report: exact, longer, one byte short.
use crate::cases::refused;
use job::{JobInput, Overrides, Programme};
use std::io;

// The answer for job A, but of so many chunks; the bytes at the ends of the buffer tell what was
// written.
fn a_into(rt: &impl Print, chunks: u16, out: &mut [u8]) -> io::Result<()> {
    let job = JobInput {
        programme: Programme {
            chunks,
            span: 2,
            delay: 2,
            limit: 2,
        },
        sizes: &[2, 1],
        overrides: Overrides {
            chunks: &[],
            layers: &[],
            bytes: &[],
        },
        forecast: &[3, 0, 1, 0, 2, 0],
    };
    match report::report(&job, out) {
        Ok(n) => println!(rt; "written {n}")?,
        Err(refusal) => refused(rt, refusal)?,
    }
    let first = out.first().copied().unwrap_or(0);
    let last = out.last().copied().unwrap_or(0);
    println!(rt; "first {first}")?;
    println!(rt; "last {last}")
}

pub(crate) fn rooms(rt: &impl Print) -> io::Result<()> {
    a_into(rt, 3, &mut [9; 86])?;
    a_into(rt, 3, &mut [9; 87])?;
    a_into(rt, 3, &mut [9; 85])?;
    print!(rt; "5 before 11: ")?;
    a_into(rt, 501, &mut [9; 1])
}
