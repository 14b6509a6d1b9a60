// Room for job A's lines: exact, longer, one byte short, and for any text.
use crate::cases::refused;
use job::{JobInput, Overrides, Programme};
use refusals::Refusal;
use std::io;

fn answered(rt: &impl Print, answer: Result<usize, Refusal>) -> io::Result<()> {
    match answer {
        Ok(n) => println!(rt; "written {n}"),
        Err(refusal) => refused(rt, refusal),
    }
}

// The answer for job A, but of so many chunks; the first byte of the buffer and one at a later
// place tell what was written.
fn a_into(rt: &impl Print, chunks: u16, out: &mut [u8], place: usize) -> io::Result<()> {
    let job = JobInput {
        programme: Programme {
            chunks,
            span: 2,
            delay: 2,
            limit: 2,
        },
        sizes: &[2, 1],
        overrides: Overrides {
            chunks: &[],
            layers: &[],
            bytes: &[],
        },
        forecast: &[3, 0, 1, 0, 2, 0],
    };
    answered(rt, reasons::reasons(&job, out))?;
    let first = out.first().copied().unwrap_or(0);
    let last = out.get(place).copied().unwrap_or(0);
    println!(rt; "first {first}")?;
    println!(rt; "last {last}")
}

pub(crate) fn rooms(rt: &impl Print) -> io::Result<()> {
    a_into(rt, 3, &mut [9; 128], 127)?;
    a_into(rt, 3, &mut [9; 129], 128)?;
    a_into(rt, 3, &mut [9; 127], 126)?;
    a_into(rt, 3, &mut [9; 94000], 128)?;
    print!(rt; "5 before 11: ")?;
    a_into(rt, 501, &mut [9; 1], 0)
}

// A plan that lacks nothing, into a buffer of no bytes.
pub(crate) fn nothing(rt: &impl Print) -> io::Result<()> {
    let job = JobInput {
        programme: Programme {
            chunks: 1,
            span: 1,
            delay: 1,
            limit: 0,
        },
        sizes: &[5],
        overrides: Overrides {
            chunks: &[],
            layers: &[],
            bytes: &[],
        },
        forecast: &[5],
    };
    print!(rt; "nothing in no room: ")?;
    answered(rt, reasons::reasons(&job, &mut []))
}
