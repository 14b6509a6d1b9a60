// The table of the bytes of each layer of each chunk, and the numbers that are read from it.
ghost use Rattle.std.specs.Prelude.{◌≡◌, ◌+◌, ◌*◌, ◌-◌, ◌≤◌, ◌<◌, length, get_or, set, replicate};
ghost use Rattle.theory_basics.specs.Sums.{sum};
ghost use Rattle.fetch.specs.Rows.{rows_of};
ghost use Rattle.report.specs.lemmas.Tables.{Rows, SizesIn, Summed, bytes_at, carried_by, ChunkBy, count_by};
ghost use Rattle.report.specs.lemmas.Tables.{picture_by, change_of, switch_by};

use job::{SIZES, SizeTable};

// What a chunk carries: how many layers and how many bytes.
#[derive(Clone, Copy)]
pub struct Chunk {
    pub layers: u64,
    pub bytes: u64,
}

// The sum of a slice. Sums in 64 bits: 3,600 slots need 36, and 5,599 rows of 32 bits 45.
pub(crate) fn sum_of(s: &[u32]) -> u64
    requires { length s.now ≤ 5599 }
    ensures { result ≡ sum (λ k. get_or s.now k 0) (length s.now) }
{
    let mut total: u64 = 0;
    for bytes in s {
        total += u64::from(*bytes);
    }
    total
}

// A row's bytes go to those of its layer of its chunk.
fn add_row(table: &mut [u64; SIZES], c: u16, l: u8, b: u32)
    requires { (1 ≤ c) × (c ≤ 500) × (l < 4) × (bytes_at table.old c l ≤ 35184372088832) }
    ensures { table.new ≡ set table.old (4 * (c - 1) + l)
        (bytes_at table.old c l + b) }
{
    let at = 4 * ((c as usize) - 1) + (l as usize);
    table[at] += u64::from(b);
}

// The pass over the rows.
// Kept: the planner hands its rows over as four slices, as the C interface has them.
pub(crate) fn add_rows(
    slots: &[u16],
    chunks: &[u16],
    layers: &[u8],
    bytes: &[u32],
    table: &mut [u64; SIZES],
)
    requires { Rows slots.now chunks.now layers.now bytes.now × (table.old ≡ replicate 2000 0) }
    ensures { Summed
        (rows_of slots.now chunks.now layers.now bytes.now)
        table.new }
{
    for i in 0..slots.len() {
        add_row(table, chunks[i], layers[i], bytes[i]);
    }
}

// The bytes of layer n of chunk i.
fn bytes_at(table: &[u64; SIZES], i: u16, n: usize) -> u64
    requires { (1 ≤ i) × (i ≤ 500) × (n < 4) }
    ensures { result ≡ bytes_at table.now i n }
{
    let at = 4 * ((i as usize) - 1) + n;
    table[at]
}

// Whether layer n of chunk i is carried: its rows sum to its size, which the table of all sizes
// has.
fn is_carried(sizes: &SizeTable, table: &[u64; SIZES], i: u16, n: usize) -> bool
    requires { (1 ≤ i) × (i ≤ 500) × (n < 4) }
    ensures { result ≡ carried_by sizes.now table.now i n }
{
    bytes_at(table, i, n) == u64::from(core_sizes::size_at(sizes, i, n))
}

// The layers and bytes that chunk i carries.
pub(crate) fn chunk_of(sizes: &SizeTable, depth: usize, table: &[u64; SIZES], i: u16) -> Chunk
    requires { (depth ≤ 4) × (1 ≤ i) × (i ≤ 500) × SizesIn sizes.now }
    ensures { ChunkBy sizes.now table.now depth i result }
{
    let mut layers = 0;
    let mut bytes = 0;
    for n in 0..depth {
        if is_carried(sizes, table, i, n) {
            layers += 1;
            bytes += bytes_at(table, i, n);
        }
    }
    Chunk { layers, bytes }
}

// How many of the chunks carry layer n.
pub(crate) fn layer_count(sizes: &SizeTable, table: &[u64; SIZES], count: u16, n: usize) -> u64
    requires { (count ≤ 500) × (n < 4) }
    ensures { result ≡ count_by sizes.now table.now count n }
{
    let mut carry = 0;
    for i in 0..count {
        if is_carried(sizes, table, i + 1, n) {
            carry += 1;
        }
    }
    carry
}

// What a chunk puts on the screen: its bytes, or nothing new if it is skipped.
fn picture_of(sizes: &SizeTable, depth: usize, table: &[u64; SIZES], i: u16) -> Option<u64>
    requires { (depth ≤ 4) × (1 ≤ i) × (i ≤ 500) × SizesIn sizes.now }
    ensures { result ≡ picture_by sizes.now table.now depth i }
{
    if is_carried(sizes, table, i, 0) {
        Some(chunk_of(sizes, depth, table, i).bytes)
    } else {
        None
    }
}

// The difference in bytes where a picture follows another.
fn change(last: Option<u64>, here: Option<u64>) -> u64
    ensures { result ≡ change_of «last» «here» }
{
    match (last, here) {
        (Some(a), Some(b)) => a.abs_diff(b),
        _ => 0,
    }
}

// The sum of the differences in bytes between each carried chunk and the next carried one.
pub(crate) fn switch_sum(sizes: &SizeTable, depth: usize, table: &[u64; SIZES], count: u16) -> u64
    requires { (depth ≤ 4) × (count ≤ 500) × SizesIn sizes.now }
    ensures { result ≡ switch_by sizes.now table.now depth count }
{
    let mut sum = 0;
    let mut last = None;
    for i in 0..count {
        let here = picture_of(sizes, depth, table, i + 1);
        sum += change(last, here);
        // A skipped chunk holds the last picture.
        last = here.or(last);
    }
    sum
}
