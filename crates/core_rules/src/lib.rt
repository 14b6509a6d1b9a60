// Internal. The rules of a fetch list by tables: one pass over the rows fills tables of sums and of
// first slots; one pass over the chunks and two over the slots read them. The checker and the
// planner afresh stand on it.
#![tactic(auto)]

ghost use Rattle.std.specs.Prelude.{◌≡◌, ◌&&◌, ℕ, ◌+◌, ◌*◌, ◌-◌, ◌/◌, ◌<◌, ◌≤◌, min, length, get_or, set, replicate, leb};
ghost use Rattle.theory_basics.specs.Tests.{all_to};
ghost use Rattle.job.specs.Job.{due_slot};
ghost use Rattle.core_sizes.specs.Table.{table_at};
ghost use Rattle.fetch.specs.Rows.{rows_of};
ghost use Rattle.core_rules.specs.lemmas.Tables.{cap, in_range, TallyPost, SeeChunkPost, SeeAllPost, held_by};
ghost use Rattle.core_rules.specs.lemmas.Tables.{MarkTimesPost};

use job::{Programme, SIZES, SUMS, SizeTable, SlotSums};

// What the pass over the rows finds: rule 1, and where it holds rule 5.
#[derive(Clone, Copy)]
pub struct Pass {
    pub ranged: bool,
    pub timely: bool,
}

// The layers of one chunk: its mark byte, rules 2 and 3.
#[derive(Clone, Copy)]
pub struct Seen {
    pub mark: u8,
    pub whole: bool,
    pub lower: bool,
}

// The layers of all chunks: rules 2, 3 and 7.
#[derive(Clone, Copy)]
pub struct Layers {
    pub whole: bool,
    pub lower: bool,
    pub said: bool,
}

const CAP: u64 = 1099511627776;

// Rule 1 of one row.
fn in_range(last: usize, count: u16, depth: usize, s: u16, c: u16, l: u8, b: u32) -> bool
    ensures { result ≡ in_range last count depth (record { slot = s; chunk = c; layer = l; bytes = b }) }
{
    1 <= s && s as usize <= last && 1 <= c && c <= count && (l as usize) < depth && 1 <= b
}

// A row goes into the tables. The sums stop at CAP: a direct call may hand more rows than 64 bits
// can sum, and any sum above CAP breaks rule 2 or 4 alike.
fn add_row(
    slotsum: &mut SlotSums,
    layersum: &mut [u64; SIZES],
    first: &mut [u16; 501],
    s: u16,
    c: u16,
    l: u8,
    b: u32,
)
    requires { (s ≤ 3600)
        × (1 ≤ c)
        × (c ≤ 500)
        × (l < 4)
        × (get_or slotsum.old s 0 ≤ cap)
        × (get_or layersum.old (4 * (c - 1) + l) 0 ≤ cap) }
    ensures { (slotsum.new ≡ set slotsum.old s
        (min cap (get_or slotsum.old s 0 + b)))
        × (layersum.new ≡ set layersum.old (4 * (c - 1) + l)
        (min cap (get_or layersum.old (4 * (c - 1) + l) 0 + b)))
        × (first.new ≡ set first.old c (min (get_or first.old c 0) s)) }
{
    let t = s as usize;
    let i = c as usize;
    let at = 4 * (i - 1) + (l as usize);
    slotsum[t] = CAP.min(slotsum[t] + b as u64);
    layersum[at] = CAP.min(layersum[at] + b as u64);
    first[i] = first[i].min(s);
}

// One pass over the rows: rule 1, rule 5 and the tables. A row out of range ends it.
pub fn tally(
    p: Programme,
    last: usize,
    depth: usize,
    slots: &[u16],
    chunks: &[u16],
    layers: &[u8],
    bytes: &[u32],
    slotsum: &mut SlotSums,
    layersum: &mut [u64; SIZES],
    first: &mut [u16; 501],
) -> Pass
    requires { (last ≤ 3600)
        × (p.chunks ≤ 500)
        × (depth ≤ 4)
        × (length slots.now ≡ length chunks.now)
        × (length slots.now ≡ length layers.now)
        × (length slots.now ≡ length bytes.now)
        × (slotsum.old ≡ replicate 3601 0)
        × (layersum.old ≡ replicate 2000 0)
        × (first.old ≡ replicate 501 65535) }
    ensures { TallyPost p last depth
        (rows_of slots.now chunks.now layers.now bytes.now)
        result slotsum.new layersum.new first.new }
{
    let mut timely = true;
    for (i, &s) in slots.iter().enumerate() {
        let c = chunks[i];
        let l = layers[i];
        let b = bytes[i];
        if !in_range(last, p.chunks, depth, s, c, l, b) {
            return Pass {
                ranged: false,
                timely: false,
            };
        }
        timely &= s as usize <= job::due_slot(p, c);
        add_row(slotsum, layersum, first, s, c, l, b);
    }
    Pass {
        ranged: true,
        timely,
    }
}

// The layers of chunk i, from the base up.
pub fn see_chunk(table: &SizeTable, depth: usize, layersum: &[u64; SIZES], i: u16) -> Seen
    requires { (depth ≤ 4) × (1 ≤ i) × (i ≤ 500) }
    ensures { SeeChunkPost (table_at table.now) layersum.now depth i result }
{
    let from = 4 * (i as usize - 1);
    let mut mark: u8 = 0;
    let mut whole = true;
    let mut lower = true;
    let mut below = true;
    for n in 0..depth {
        let sum = layersum[from + n];
        let carried = sum == core_sizes::size_at(table, i, n) as u64;
        if carried {
            mark = fetch::with(mark, n as u8);
            lower &= below;
        } else {
            whole &= sum == 0;
        }
        below = carried;
    }
    Seen { mark, whole, lower }
}

// Rules 2, 3 and 7, chunk by chunk.
pub fn see_all(
    table: &SizeTable,
    depth: usize,
    layersum: &[u64; SIZES],
    marks: &[u8],
    count: u16,
) -> Layers
    requires { (depth ≤ 4) × (count ≤ 500) × (length marks.now ≡ count) }
    ensures { SeeAllPost (table_at table.now) layersum.now marks.now depth count
        result }
{
    let mut whole = true;
    let mut lower = true;
    let mut said = true;
    for i in 0..count {
        let seen = see_chunk(table, depth, layersum, i + 1);
        whole &= seen.whole;
        lower &= seen.lower;
        said &= marks[i as usize] == seen.mark;
    }
    Layers { whole, lower, said }
}

// Rule 4, slot by slot.
pub fn within(forecast: &[u32], slotsum: &SlotSums) -> bool
    requires { length forecast.now ≤ 3600 }
    ensures { result ≡ all_to (length forecast.now)
        (λ t. leb (get_or slotsum.now t 0) (get_or forecast.now (t - 1) 0)) }
{
    for (t, &most) in forecast.iter().enumerate() {
        if (most as u64) < slotsum[t + 1] {
            return false;
        }
    }
    true
}

// The slots in which chunks begin to be held, and in which they cease to be. A chunk begun in its
// due slot is never held.
fn mark_times(p: Programme, first: &[u16; 501], begins: &mut [u16; SUMS], ends: &mut [u16; SUMS])
    requires { (p.chunks ≤ 500)
        × ((i : ℕ) → i ≤ p.chunks → due_slot p i ≤ 3600)
        × (begins.old ≡ replicate 3601 0)
        × (ends.old ≡ replicate 3601 0) }
    ensures { MarkTimesPost p first.now p.chunks begins.new ends.new }
{
    for i in 0..p.chunks {
        let a = first[i as usize + 1] as usize;
        let d = job::due_slot(p, i + 1);
        if a < d {
            begins[a] += 1;
            ends[d] += 1;
        }
    }
}

// Rule 6, slot by slot.
pub fn sweep(p: Programme, last: usize, first: &[u16; 501]) -> bool
    requires { (p.chunks ≤ 500)
        × (last ≤ 3600)
        × ((i : ℕ) → i ≤ p.chunks → due_slot p i ≤ 3600)
        × ((i : ℕ) → 1 ≤ i → i ≤ 500 → 1 ≤ get_or first.now i 0) }
    ensures { result ≡ all_to last (λ t. leb (held_by p first.now t) (p.limit / p.span)) }
{
    let most = job::held_most(p);
    let mut begins = [0u16; SUMS];
    let mut ends = [0u16; SUMS];
    mark_times(p, first, &mut begins, &mut ends);
    let mut held: u16 = 0;
    for t in 0..last {
        let more = held + begins[t + 1];
        held = more - ends[t + 1];
        if most < held {
            return false;
        }
    }
    true
}
