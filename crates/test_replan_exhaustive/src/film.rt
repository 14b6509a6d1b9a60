// A film of the family, by value: 2 or 3 chunks, one or two layers, at most 4 slots. Chunks, slots
// and cells are counted from 0 here; layer n of chunk i is part 2i + n. What document 01 says of a
// job is written anew.
ghost use Rattle.std.specs.Prelude.{◌≤◌};

use core_prefix::prefix;
use job::{JobInput, Overrides, Programme};

// Its number, and four bits for the size of each part.
#[derive(Clone, Copy)]
pub(crate) struct Film {
    pub number: u16,
    pub chunks: u16,
    pub span: u16,
    pub delay: u16,
    pub limit: u16,
    pub sizes: u32,
}

pub(crate) const PARTS: u16 = 6;

// Equal chunks of one layer, uneven ones, equal chunks of two layers, uneven ones.
fn parts(kind: u16) -> u32 {
    match kind {
        0 => 0x010101,
        1 => 0x020202,
        2 => 0x010201,
        3 => 0x020102,
        4 => 0x111111,
        5 => 0x121212,
        6 => 0x212121,
        _ => 0x211211,
    }
}

// 48 programmes of 8 kinds.
pub(crate) const NUMBERS: u16 = 384;

pub(crate) fn film_of(k: u16) -> Film {
    Film {
        number: k,
        chunks: 2 + k % 2,
        span: 1 + k / 2 % 2,
        delay: 1 + k / 4 % 3,
        limit: k / 12 % 4,
        sizes: parts(k / 48),
    }
}

// The paper's d(i + 1); L is 1 or 2. The remainders tell the prover that the sums are small.
pub(crate) fn due(f: Film, i: u16) -> u16 {
    if f.span == 1 {
        i % 4 + f.delay % 4
    } else {
        2 * (i % 4) + f.delay % 4
    }
}

// The paper's d(C).
pub(crate) fn last_due(f: Film) -> u16 {
    if f.chunks == 0 {
        0
    } else {
        due(f, f.chunks - 1)
    }
}

// The bytes of a part; 0 for one that the job does not have.
pub(crate) fn size(f: Film, part: u16) -> u32
    ensures { result ≤ 15 }
{
    if part / 2 < f.chunks && part < PARTS {
        (f.sizes >> (4 * part)) % 16
    } else {
        0
    }
}

fn layers(f: Film) -> usize {
    if 0 < size(f, 1) { 2 } else { 1 }
}

// H, the whole part of limit / L.
pub(crate) fn held_most(f: Film) -> u16 {
    if f.span == 1 { f.limit } else { f.limit / 2 }
}

// "Where H is at least C and base sizes vary" request 9 settles the bases of the plan.
pub(crate) fn walked(f: Film) -> bool {
    f.chunks <= held_most(f) && (differs(f, 2) || differs(f, 4))
}

// Whether a later part has another size than chunk 0's: it has an SZ.
fn differs(f: Film, part: u16) -> bool {
    part / 2 < f.chunks && size(f, part) != size(f, part % 2)
}

// A film's sizes and SZs as the calls take them.
#[derive(Clone, Copy)]
pub(crate) struct Sizes {
    own: [u32; 2],
    chunks: [u16; 4],
    layers: [u8; 4],
    bytes: [u32; 4],
    uneven: usize,
}

pub(crate) fn sizes_of(f: Film) -> Sizes {
    let mut sizes = Sizes {
        own: [size(f, 0), size(f, 1)],
        chunks: [0; 4],
        layers: [0; 4],
        bytes: [0; 4],
        uneven: 0,
    };
    for part in 2..PARTS {
        let n = sizes.uneven;
        if differs(f, part) && n < 4 {
            sizes.chunks[n] = 1 + part / 2;
            sizes.layers[n] = (part % 2) as u8;
            sizes.bytes[n] = size(f, part);
            sizes.uneven = n + 1;
        }
    }
    sizes
}

// The job with as much of a forecast as it has slots.
pub(crate) fn job_of<'a>(f: Film, sizes: &'a Sizes, forecast: &'a [u32; 4]) -> JobInput<'a> {
    let n = sizes.uneven;
    let overrides = Overrides {
        chunks: prefix(&sizes.chunks, n),
        layers: prefix(&sizes.layers, n),
        bytes: prefix(&sizes.bytes, n),
    };
    JobInput {
        programme: Programme {
            chunks: f.chunks,
            span: f.span,
            delay: f.delay,
            limit: f.limit,
        },
        sizes: prefix(&sizes.own, layers(f)),
        overrides,
        forecast: prefix(forecast, last_due(f) as usize),
    }
}
