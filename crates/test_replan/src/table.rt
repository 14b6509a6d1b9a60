// The numbers of a case in three tables, with 32, 16 and 8 bits. A list is its length and then its
// numbers.
ghost use Rattle.std.specs.Prelude.{◌≤◌};

use fetch::Rows;
use job::{JobInput, Overrides, Programme};

#[derive(Clone, Copy)]
pub(crate) struct Tables {
    pub words: [u32; 512],
    pub halves: [u16; 512],
    pub bytes: [u8; 512],
}

pub(crate) fn tables_of(numbers: [u32; 512]) -> Tables {
    let mut halves = [0; 512];
    let mut bytes = [0; 512];
    for (k, x) in numbers.iter().enumerate() {
        halves[k] = (x % 65536) as u16;
        bytes[k] = (x % 256) as u8;
    }
    Tables {
        words: numbers,
        halves,
        bytes,
    }
}

// The number at a place, below 512.
pub(crate) fn small(tables: &Tables, at: usize) -> usize
    ensures { result ≤ 511 }
{
    if at < 512 {
        (tables.words[at] % 512) as usize
    } else {
        0
    }
}

// The place after the list at a place.
fn after(tables: &Tables, at: usize) -> usize
    ensures { result ≤ 511 }
{
    (at.min(511) + 1 + small(tables, at)).min(511)
}

// Where the lists of a case stand: its sizes, its SZs' chunks, layers and bytes, its forecast, the
// slot p, the rows' slots, chunks, layers and bytes, and the forecast from p on or the marks.
#[derive(Clone, Copy)]
pub(crate) struct Places {
    pub sizes: usize,
    pub size_chunks: usize,
    pub size_layers: usize,
    pub size_bytes: usize,
    pub forecast: usize,
    pub from: usize,
    pub slots: usize,
    pub chunks: usize,
    pub layers: usize,
    pub bytes: usize,
    pub last: usize,
    pub room: usize,
}

pub(crate) fn places_in(tables: &Tables) -> Places {
    let sizes: usize = 5;
    let size_chunks = after(tables, sizes);
    let size_layers = after(tables, size_chunks);
    let size_bytes = after(tables, size_layers);
    let forecast = after(tables, size_bytes);
    let from = after(tables, forecast);
    let slots = from + 1;
    let chunks = after(tables, slots);
    let layers = after(tables, chunks);
    let bytes = after(tables, layers);
    let last = after(tables, bytes);
    let room = after(tables, last);
    Places {
        sizes,
        size_chunks,
        size_layers,
        size_bytes,
        forecast,
        from,
        slots,
        chunks,
        layers,
        bytes,
        last,
        room,
    }
}

// The n numbers behind a place; all of them where they are not there.
fn behind<T>(s: &[T], at: usize, n: usize) -> &[T] {
    if s.len() <= at || s.len() - at <= n {
        s
    } else {
        &s[at + 1..at + 1 + n]
    }
}

pub(crate) fn words(tables: &Tables, at: usize) -> &[u32] {
    behind(&tables.words, at, small(tables, at))
}

pub(crate) fn halves(tables: &Tables, at: usize) -> &[u16] {
    behind(&tables.halves, at, small(tables, at))
}

pub(crate) fn bytes(tables: &Tables, at: usize) -> &[u8] {
    behind(&tables.bytes, at, small(tables, at))
}

pub(crate) fn slot(tables: &Tables, at: usize) -> u16 {
    tables.halves.get(at).copied().unwrap_or(0)
}

pub(crate) fn job_in(tables: &Tables, at: Places) -> JobInput<'_> {
    let overrides = Overrides {
        chunks: halves(tables, at.size_chunks),
        layers: bytes(tables, at.size_layers),
        bytes: words(tables, at.size_bytes),
    };
    JobInput {
        programme: Programme {
            chunks: tables.halves[1],
            span: tables.halves[2],
            delay: tables.halves[3],
            limit: tables.halves[4],
        },
        sizes: words(tables, at.sizes),
        overrides,
        forecast: words(tables, at.forecast),
    }
}

pub(crate) fn rows_in(tables: &Tables, at: Places) -> Rows<'_> {
    Rows {
        slots: halves(tables, at.slots),
        chunks: halves(tables, at.chunks),
        layers: bytes(tables, at.layers),
        bytes: words(tables, at.bytes),
    }
}
