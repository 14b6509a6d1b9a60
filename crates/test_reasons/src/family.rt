// A family of small jobs: C 1 to 3, L 1 or 2, s 1 or 2, limit 0 to 3, bases of 1 or 2 bytes and a
// layer of 1 byte, with SZs or none, and slots of 0 to 2 bytes.
use core_prefix::prefix;
use job::{JobInput, Overrides, Programme};
use std::io;

// What is counted of the texts.
#[derive(Clone, Copy)]
struct Tally {
    jobs: u64,
    silent: u64,
    lines: u64,
    lower: u64,
    sum: u64,
}

fn programme(k: u32) -> Programme {
    Programme {
        chunks: 1 + (k % 3) as u16,
        span: 1 + (k / 3 % 2) as u16,
        delay: 1 + (k / 6 % 2) as u16,
        limit: (k / 12 % 4) as u16,
    }
}

// How many of the three SZs job k has, for the chunks that it has.
fn uneven(kind: u32, chunks: u16) -> usize {
    if kind == 0 || chunks < 2 {
        0
    } else if kind == 1 {
        1
    } else if chunks < 3 {
        2
    } else {
        3
    }
}

fn digit(f: u32) -> u32 {
    f % 3
}

fn add(sum: &mut u64, n: u64) {
    *sum = sum.saturating_add(n);
}

// How often a byte stands in a text.
fn count(text: &[u8], byte: u8) -> u64 {
    text.iter().filter(|&&x| x == byte).count() as u64
}

// A text after a sum.
fn sum_on(sum: u64, text: &[u8]) -> u64 {
    text.iter()
        .fold(sum, |s, &x| s % 1000000007 * 31 + u64::from(x))
}

fn note(text: &[u8], tally: &mut Tally) {
    add(&mut tally.jobs, 1);
    add(&mut tally.silent, u64::from(text.is_empty()));
    add(&mut tally.lines, count(text, b'\n'));
    add(&mut tally.lower, count(text, b'm'));
    tally.sum = sum_on(tally.sum, text);
}

// A refusal is no text of the family: it would show in the sum.
fn one_job(k: u32, tally: &mut Tally) {
    let p = programme(k);
    let base = 1 + k / 48 % 2;
    let n = uneven(k / 96 % 3, p.chunks);
    let f = k / 288;
    let forecast = [
        digit(f),
        digit(f / 3),
        digit(f / 9),
        digit(f / 27),
        digit(f / 81),
        digit(f / 243),
    ];
    let sizes = [base, 1];
    let chunks = [2, 2, 3];
    let layers = [0, 1, 0];
    let bytes = [base + 1, 2, base + 2];
    let overrides = Overrides {
        chunks: prefix(&chunks, n),
        layers: prefix(&layers, n),
        bytes: prefix(&bytes, n),
    };
    let job = JobInput {
        programme: p,
        sizes: &sizes,
        overrides,
        forecast: prefix(&forecast, job::last_due(p)),
    };
    let mut out = [0u8; 1024];
    match reasons::reasons(&job, &mut out) {
        Ok(n) => note(prefix(&out, n), tally),
        Err(refusal) => note(&[refusal.number()], tally),
    }
}

pub(crate) fn every_job(rt: &impl Print) -> io::Result<()> {
    let mut tally = Tally {
        jobs: 0,
        silent: 0,
        lines: 0,
        lower: 0,
        sum: 0,
    };
    for i in 0..11000 {
        one_job(i * 19, &mut tally);
    }
    println!(rt; "jobs {} without a line {}", tally.jobs, tally.silent)?;
    println!(rt; "lines {} of the second kind {}", tally.lines, tally.lower)?;
    println!(rt; "all texts as one number {}", tally.sum)
}
