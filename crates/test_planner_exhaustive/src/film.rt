// A job of the family, by value: at most 3 chunks, 4 layers and 4 slots. Chunks and slots are
// counted from 0 here: slot t is the paper's slot t + 1, chunk i its chunk i + 1. What document 01
// says of a job is written anew, so that a fault in `job` would show too.
ghost use Rattle.std.specs.Prelude.{◌≤◌};

use job::Programme;

// Two bits for the size of each layer of each chunk, four for the forecast of each slot.
#[derive(Clone, Copy)]
pub(crate) struct Film {
    pub chunks: u16,
    pub span: u16,
    pub delay: u16,
    pub limit: u16,
    pub sizes: u32,
    pub forecast: u32,
}

pub(crate) fn programme(f: Film) -> Programme {
    Programme {
        chunks: f.chunks,
        span: f.span,
        delay: f.delay,
        limit: f.limit,
    }
}

// The paper's d(i + 1).
pub(crate) fn due(f: Film, i: u16) -> usize {
    (i as usize) * (f.span as usize) + (f.delay as usize)
}

// The paper's d(C).
pub(crate) fn last_due(f: Film) -> usize {
    if f.chunks == 0 {
        0
    } else {
        due(f, f.chunks - 1)
    }
}

// H, the whole part of limit / L.
pub(crate) fn held_most(f: Film) -> u16 {
    f.limit.checked_div(f.span).unwrap_or(0)
}

// The bytes of a part: layer n of chunk i is part 4i + n. 0 for a layer that the job does not have.
pub(crate) fn size(f: Film, part: u16) -> u32
    ensures { result ≤ 3 }
{
    if part < 12 {
        (f.sizes >> (2 * part)) % 4
    } else {
        0
    }
}

// The sizes of chunk 0 for every chunk.
fn equal_sizes(f: Film) -> u32 {
    f.sizes % 256 * 0x10101
}

pub(crate) fn is_equal(f: Film) -> bool {
    f.sizes == equal_sizes(f)
}

// Whether the chunks past the last have the sizes of chunk 0, so that no SZ is for them.
pub(crate) fn ends_equal(f: Film) -> bool {
    let shift = 8 * (f.chunks % 4);
    f.sizes >> shift == equal_sizes(f) >> shift
}

pub(crate) fn layers(f: Film) -> usize
    ensures { result ≤ 4 }
{
    (0..4).filter(|&n| 0 < size(f, n)).count()
}
