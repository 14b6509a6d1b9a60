// Internal. The plan's own list, piece by piece: each piece, with so many bytes left, goes into
// slot after slot, from its release on, until nothing is left of it. The part of the forecast may
// start at any slot, and the list may be under way already: the contracts speak of every list that
// goes on with these pieces. Sizes are those of the table that core_sizes' fill_sizes fills, or
// what the fetched rows leave of them.
#![tactic(auto)]

ghost use Rattle.std.specs.Prelude.{◌≡◌, cond, [], ◌∷◌, ℕ, ◌+◌, ◌*◌, ◌-◌, ◌<◌, ◌≤◌, length, drop, set, eqb};
ghost use Rattle.fetch.specs.Marks.{bit};
ghost use Rattle.core_sizes.specs.Table.{table_at};
ghost use Rattle.core_fill.specs.lemmas.Filling.{PutPiecePre, PutPiecePost, PutPost, begun, last_of, left_at};
ghost use Rattle.core_fill.specs.lemmas.Filling.{layers_of, piece, PutChunkPre};
ghost use Rattle.core_fill.specs.lemmas.Left.{PutAllPre, PutLeftPre, PutLayerPre, layers_left, queue_in};
ghost use Rattle.theory_plan.specs.lemmas.Parts.{ForecastPart};

use job::{CHUNKS, SizeTable};

// The slot t, the bytes left in it, and the rows made.
#[derive(Clone, Copy)]
pub struct Position {
    pub slot: usize,
    pub left: u32,
    pub rows: usize,
}

// One row at place n of the four slices.
fn put_row(
    slots: &mut [u16],
    chunks: &mut [u16],
    layers: &mut [u8],
    bytes: &mut [u32],
    n: usize,
    t: usize,
    chunk: u16,
    layer: u8,
    b: u32,
)
    requires { (n < length slots.old)
        × (n < length chunks.old)
        × (n < length layers.old)
        × (n < length bytes.old)
        × (t ≤ 3600) }
    ensures { (slots.new ≡ set slots.old n t)
        × (chunks.new ≡ set chunks.old n chunk)
        × (layers.new ≡ set layers.old n layer)
        × (bytes.new ≡ set bytes.old n b) }
{
    slots[n] = t as u16;
    chunks[n] = chunk;
    layers[n] = layer;
    bytes[n] = b;
}

// A chunk does not begin before its release.
fn begin(part: &[u32], start: usize, at: Position, ready: u16) -> Position
    requires { ForecastPart start part.now × (start ≤ at.slot) × (ready ≤ last_of start part.now) }
    ensures { result ≡ begun start part.now at ready }
{
    let r = ready as usize;
    if at.slot < r {
        Position {
            slot: r,
            left: part[r - start],
            rows: at.rows,
        }
    } else {
        at
    }
}

// The rows made, after a row of b bytes at place n. One without bytes is none: the next is written
// over it.
fn rows_with(n: usize, b: u32) -> usize
    requires { n ≤ 5600 }
    ensures { result ≡ cond (eqb b 0) n (n + 1) }
{
    if b == 0 { n } else { n + 1 }
}

// A piece that may begin goes into slot after slot until nothing is left of it. A slot that has no
// bytes left gets a row too, which does not count: so no slot is asked whether it has.
fn put_piece(
    part: &[u32],
    start: usize,
    at: Position,
    chunk: u16,
    layer: u8,
    size: u32,
    slots: &mut [u16],
    chunks: &mut [u16],
    layers: &mut [u8],
    bytes: &mut [u32],
) -> Position
    requires { PutPiecePre start part.now 1 at slots.old chunks.old layers.old bytes.old
        × (1 ≤ size)
        × (size ≤ at.left + left_at start part.now at.slot) }
    ensures { PutPiecePost start part.now chunk layer size at slots.old
        chunks.old layers.old bytes.old
        result slots.new chunks.new layers.new bytes.new }
{
    let mut t = at.slot;
    let mut c = at.left;
    let mut n = at.rows;
    let mut left = size;
    while c < left {
        put_row(slots, chunks, layers, bytes, n, t, chunk, layer, c);
        n = rows_with(n, c);
        left -= c;
        t += 1;
        c = part[t - start];
    }
    put_row(slots, chunks, layers, bytes, n, t, chunk, layer, left);
    Position {
        slot: t,
        left: c - left,
        rows: n + 1,
    }
}

// The layers that a chunk carries: its mark has them from the base up.
fn put_chunk(
    part: &[u32],
    start: usize,
    table: &SizeTable,
    from: Position,
    ready: u16,
    chunk: u16,
    mark: u8,
    slots: &mut [u16],
    chunks: &mut [u16],
    layers: &mut [u8],
    bytes: &mut [u32],
) -> Position
    requires { PutChunkPre start part.now (table_at table.now) from ready chunk mark slots.old chunks.old
        layers.old bytes.old }
    ensures { PutPost start part.now (layers_of (table_at table.now) chunk ready mark) 4 from
        slots.old chunks.old layers.old bytes.old
        result slots.new chunks.new layers.new bytes.new }
{
    let mut at = begin(part, start, from, ready);
    let mut n: u8 = 0;
    // Kept: a layer is tested by shift and mask over its number; the first that isn't set ends it.
    while fetch::has(mark, n) {
        let z = core_sizes::size_in(table, chunk, n as usize);
        at = put_piece(part, start, at, chunk, n, z, slots, chunks, layers, bytes);
        n += 1;
    }
    at
}

// A piece, from its release on.
fn put_layer(
    part: &[u32],
    start: usize,
    from: Position,
    ready: u16,
    chunk: u16,
    layer: u8,
    size: u32,
    slots: &mut [u16],
    chunks: &mut [u16],
    layers: &mut [u8],
    bytes: &mut [u32],
) -> Position
    requires { PutLayerPre start part.now from ready size slots.old chunks.old layers.old bytes.old }
    ensures { PutPost start part.now (piece chunk layer size ready ∷ []) 1 from slots.old
        chunks.old layers.old bytes.old
        result slots.new chunks.new layers.new bytes.new }
{
    let at = begin(part, start, from, ready);
    put_piece(
        part, start, at, chunk, layer, size, slots, chunks, layers, bytes,
    )
}

// What is left of the layers that a chunk carries: one with nothing left is passed over.
fn put_left(
    part: &[u32],
    start: usize,
    left: &SizeTable,
    from: Position,
    ready: u16,
    chunk: u16,
    mark: u8,
    slots: &mut [u16],
    chunks: &mut [u16],
    layers: &mut [u8],
    bytes: &mut [u32],
) -> Position
    requires { PutLeftPre start part.now (table_at left.now) from ready chunk mark slots.old chunks.old
        layers.old bytes.old }
    ensures { PutPost start part.now (layers_left (table_at left.now) chunk ready mark) 4
        from slots.old chunks.old layers.old bytes.old
        result slots.new chunks.new layers.new bytes.new }
{
    let mut at = from;
    let mut n: u8 = 0;
    // Kept: as in put_chunk.
    while fetch::has(mark, n) {
        let z = core_sizes::size_in(left, chunk, n as usize);
        if 0 < z {
            at = put_layer(
                part, start, at, ready, chunk, n, z, slots, chunks, layers, bytes,
            );
        }
        n += 1;
    }
    at
}

// The pieces of all kept chunks; made afresh, what is left of them.
pub fn put_all(
    part: &[u32],
    start: usize,
    afresh: bool,
    table: &SizeTable,
    ids: &[u16; CHUNKS],
    ready: &[u16; CHUNKS],
    mark: &[u8; CHUNKS],
    first: usize,
    from: Position,
    slots: &mut [u16],
    chunks: &mut [u16],
    layers: &mut [u8],
    bytes: &mut [u32],
) -> Position
    requires { PutAllPre afresh start part.now (table_at table.now) ids.now ready.now mark.now first from
        slots.old chunks.old layers.old bytes.old }
    ensures { PutPost start part.now
        (queue_in afresh (table_at table.now) (drop first ids.now) (drop first ready.now)
        (drop first mark.now)) (4 * (500 - first)) from slots.old chunks.old
        layers.old bytes.old
        result slots.new chunks.new layers.new bytes.new }
{
    let mut at = from;
    for q in first..CHUNKS {
        let chunk = ids[q];
        let r = ready[q];
        let m = mark[q];
        if afresh {
            at = put_left(
                part, start, table, at, r, chunk, m, slots, chunks, layers, bytes,
            );
        } else {
            at = put_chunk(
                part, start, table, at, r, chunk, m, slots, chunks, layers, bytes,
            );
        }
    }
    at
}
