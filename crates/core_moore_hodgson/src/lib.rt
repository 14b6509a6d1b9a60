// Internal. Request 9's way to settle bases is the Moore-Hodgson algorithm (fewest late jobs on one
// machine, 1968): take the jobs by due date, and whenever the taken ones are late drop the longest.
// Here in C log C by a tree of maxima in a table of 1,024 places: place 512 + i has the bytes of
// chunk i's base if it is kept, else 0, and each place below 512 the larger of the two under it.
// Adding or dropping a base changes the places from its leaf to the root, up to the first that
// stays as it is; the largest kept one, the earliest among equals, is found from the root down. The
// kept chunks end up where core_decide's pass over the bases leaves them: at the end of tables of
// 500 places, in playing order.
#![tactic(auto)]

ghost use Rattle.std.specs.Prelude.{◌≡◌, not, ◌≤◌};
ghost use Rattle.core_sizes.specs.Table.{table_at};
ghost use Rattle.theory_plan.specs.lemmas.Parts.{at};
ghost use Rattle.core_moore_hodgson.specs.lemmas.Tables.{Maxima, LeafPre, LeafPost, FindLargestPost};
ghost use Rattle.core_moore_hodgson.specs.lemmas.Tables.{KeepOrDropPre, KeepOrDropPost, GatherPre, GatherPost};
ghost use Rattle.core_moore_hodgson.specs.lemmas.Tables.{KeepMostPre, KeptIn, equal_in, moore_hodgson_in, applies_in};

use job::{CHUNKS, Programme, SizeTable, SlotSums};

// Base sizes do not vary: each base has chunk 1's size.
fn equal_bases(p: Programme, table: &SizeTable) -> bool
    ensures { result ≡ equal_in p.chunks (table_at table.now) }
{
    let own = core_sizes::size_at(table, 1, 0);
    (0..p.chunks).all(|k| core_sizes::size_at(table, k + 1, 0) == own)
}

// Request 9 settles the bases: the limit holds the programme, and base sizes vary.
pub fn applies(p: Programme, table: &SizeTable) -> bool
    ensures { result ≡ applies_in p (table_at table.now) }
{
    p.chunks <= job::held_most(p) && !equal_bases(p, table)
}

// A leaf gets a value no smaller than its own, and so does each place above it up to the first that
// has as much.
fn add_leaf(tree: &mut [u32; 1024], leaf: usize, v: u32)
    requires { LeafPre leaf tree.old × (at tree.old leaf ≤ v) }
    ensures { LeafPost leaf v tree.old tree.new }
{
    tree[leaf] = v;
    let mut p = leaf / 2;
    while 0 < p && tree[p] < v {
        tree[p] = v;
        p = p / 2;
    }
}

// A leaf gets 0, and each place above it its maximum anew, up to the first that stays as it is.
fn clear_leaf(tree: &mut [u32; 1024], leaf: usize)
    requires { LeafPre leaf tree.old }
    ensures { LeafPost leaf 0 tree.old tree.new }
{
    tree[leaf] = 0;
    let mut p = leaf / 2;
    while 0 < p {
        let top = tree[2 * p].max(tree[2 * p + 1]);
        if tree[p] == top {
            return;
        }
        tree[p] = top;
        p = p / 2;
    }
}

// The leaf of the largest, the first among equals: down from place 1, to the left where the largest
// is there.
fn find_largest(tree: &[u32; 1024]) -> usize
    requires { Maxima tree.now }
    ensures { FindLargestPost tree.now result }
{
    let top = tree[1];
    let mut p: usize = 1;
    while p < 512 {
        let left = 2 * p;
        p = if tree[left] == top { left } else { left + 1 };
    }
    p
}

// Chunks 1 to C: each is added, and where the kept ones are then more than the forecast up to its
// due slot, the largest is dropped.
fn keep_or_drop(p: Programme, table: &SizeTable, after: &SlotSums, tree: &mut [u32; 1024])
    requires { KeepOrDropPre p (table_at table.now) after.now tree.old }
    ensures { KeepOrDropPost p (table_at table.now) after.now tree.new }
{
    let all = after[0];
    let mut sum: u64 = 0;
    // Kept: the counter is the chunk less one. Over 1..=C the last turn returns by a way of its own,
    // so that the proof has each turn twice.
    for k in 0..p.chunks {
        let i = k + 1;
        let d = job::due_slot(p, i);
        let z = core_sizes::size_in(table, i, 0);
        let leaf = 512 + i as usize;
        let more = sum + z as u64;
        if more + after[d] <= all {
            add_leaf(tree, leaf, z);
            sum = more;
        } else {
            let top = tree[1];
            // A new one that is larger than all kept ones is dropped itself.
            if z <= top {
                let q = find_largest(tree);
                add_leaf(tree, leaf, z);
                clear_leaf(tree, q);
                sum = more - top as u64;
            }
        }
    }
}

// The chunks whose leaf is not 0, from the last to the first, with their due slots and their base's
// bytes.
fn gather(
    p: Programme,
    tree: &[u32; 1024],
    ids: &mut [u16; CHUNKS],
    dues: &mut [u16; CHUNKS],
    bytes: &mut [u32; CHUNKS],
) -> usize
    requires { GatherPre p }
    ensures { GatherPost p tree.now result ids.new dues.new bytes.new }
{
    let mut first: usize = CHUNKS;
    for i in (1..=p.chunks).rev() {
        let z = tree[512 + i as usize];
        if 0 < z {
            first -= 1;
            ids[first] = i;
            dues[first] = job::due_slot(p, i) as u16;
            bytes[first] = z;
        }
    }
    first
}

// The bases kept, from the place handed back on: chunks, due slots and bytes.
pub fn keep_most(
    p: Programme,
    table: &SizeTable,
    after: &SlotSums,
    ids: &mut [u16; CHUNKS],
    dues: &mut [u16; CHUNKS],
    bytes: &mut [u32; CHUNKS],
) -> usize
    requires { KeepMostPre p (table_at table.now) after.now ids.old dues.old bytes.old }
    ensures { KeptIn p (table_at table.now)
        (moore_hodgson_in p (table_at table.now) (at after.now))
        result ids.new dues.new bytes.new }
{
    let mut tree = [0u32; 1024];
    keep_or_drop(p, table, after, &mut tree);
    gather(p, &tree, ids, dues, bytes)
}
