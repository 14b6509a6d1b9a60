// Internal. The rows fetched, gathered into tables: what they leave of each layer, which chunks
// they begin, and the marks of the layers whole in them. And whether they keep what refusal 22
// asks, by the sums and first slots of rules.
#![tactic(auto)]

ghost use Rattle.std.specs.Prelude.{◌≡◌, ◌≤◌};
ghost use Rattle.theory_basics.specs.Tests.{all_below};
ghost use Rattle.core_sizes.specs.Table.{table_at};
ghost use Rattle.fetch.specs.Rows.{rows_of};
ghost use Rattle.core_replan_input.specs.lemmas.Gather.{few_by, SetFlagsPost, InTurnPost, SetLeftPost, GatherPre};
ghost use Rattle.core_replan_input.specs.lemmas.Gather.{GatherPost};

use job::{CHUNKS, Programme, SIZES, SUMS, SizeTable};

// Whether rule 3 holds, and whether no sum exceeds its size, for all chunks.
#[derive(Clone, Copy)]
pub struct Kept {
    pub lower: bool,
    pub few: bool,
}

// What the rows leave of each layer: four places a chunk.
fn set_left(table: &SizeTable, sums: &[u64; SIZES], left: &mut SizeTable)
    ensures { SetLeftPost table.now sums.now left.new }
{
    for (k, &sum) in sums.iter().enumerate() {
        left[k] = (table[k] as u64).saturating_sub(sum) as u32;
    }
}

// No layer of chunk i sums to more than its size.
fn none_above(table: &SizeTable, depth: usize, sums: &[u64; SIZES], i: u16) -> bool
    requires { (depth ≤ 4) × (1 ≤ i) × (i ≤ 500) }
    ensures { result ≡ all_below depth (few_by (table_at table.now) sums.now i) }
{
    let from = 4 * (i as usize - 1);
    let mut all = true;
    for n in 0..depth {
        all &= sums[from + n] <= core_sizes::size_in(table, i, n) as u64;
    }
    all
}

// The flag and the mark of each chunk; rule 3, and whether no sum exceeds its size.
fn set_flags(
    table: &SizeTable,
    depth: usize,
    sums: &[u64; SIZES],
    first: &[u16; 501],
    count: u16,
    begun: &mut [u8; CHUNKS],
    whole: &mut [u8; CHUNKS],
) -> Kept
    requires { (depth ≤ 4) × (count ≤ 500) }
    ensures { SetFlagsPost (table_at table.now) sums.now first.now depth count
        result begun.new whole.new }
{
    let mut lower = true;
    let mut few = true;
    for i in 0..count {
        let k = i as usize;
        let seen = core_rules::see_chunk(table, depth, sums, i + 1);
        whole[k] = seen.mark;
        // A chunk with a row, by its first slot.
        begun[k] = (first[k + 1] < 65535) as u8;
        lower &= seen.lower;
        few &= none_above(table, depth, sums, i + 1);
    }
    Kept { lower, few }
}

// Whether no chunk begins in an earlier slot than one that plays before it.
fn in_turn(count: u16, first: &[u16; 501]) -> bool
    requires { count ≤ 500 }
    ensures { InTurnPost first.now count result }
{
    let mut latest: u16 = 0;
    for i in 0..count {
        let slot = first[i as usize + 1];
        if slot < 65535 {
            if slot < latest {
                return false;
            }
            latest = slot;
        }
    }
    true
}

// The fetched rows, whole and all before the slot after those of `earlier`: their tables, and
// whether they keep what refusal 22 asks.
pub fn gather(
    p: Programme,
    table: &SizeTable,
    depth: usize,
    earlier: &[u32],
    slots: &[u16],
    chunks: &[u16],
    layers: &[u8],
    bytes: &[u32],
    left: &mut SizeTable,
    begun: &mut [u8; CHUNKS],
    whole: &mut [u8; CHUNKS],
) -> bool
    requires { GatherPre p depth earlier.now slots.now chunks.now layers.now bytes.now }
    ensures { GatherPost p table.now depth earlier.now
        (rows_of slots.now chunks.now layers.now bytes.now)
        result left.new begun.new whole.new }
{
    let last = job::last_due(p);
    let mut slotsum = [0u64; SUMS];
    let mut layersum = [0u64; SIZES];
    let mut first = [65535u16; 501];
    let pass = core_rules::tally(
        p,
        last,
        depth,
        slots,
        chunks,
        layers,
        bytes,
        &mut slotsum,
        &mut layersum,
        &mut first,
    );
    if pass.ranged {
        set_left(table, &layersum, left);
        let kept = set_flags(table, depth, &layersum, &first, p.chunks, begun, whole);
        let room = core_rules::within(earlier, &slotsum);
        let held = core_rules::sweep(p, last, &first);
        let turn = in_turn(p.chunks, &first);
        // No sum above its size, rules 3 to 6 and the playing order.
        kept.few & kept.lower & room & pass.timely & held & turn
    } else {
        false
    }
}
