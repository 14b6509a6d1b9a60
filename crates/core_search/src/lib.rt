// Internal. The search of request 13 over tables of 500 places, the same time at each step: the
// kept chunks and their needs stand at the end of ids and needs, from a first place on, and the
// best set met so far at the end of best.
#![tactic(auto)]

ghost use Rattle.std.specs.Prelude.{◌≡◌, ◌≤◌, drop};
ghost use Rattle.job.specs.Job.{last_due};
ghost use Rattle.core_sizes.specs.Table.{table_at};
ghost use Rattle.core_moore_hodgson.specs.lemmas.Tables.{KeptIn};
ghost use Rattle.core_search.specs.lemmas.Tables.{KeepBestPost, CanKeepPost, CanKeepPre, SearchPre};
ghost use Rattle.core_search.specs.lemmas.Tables.{SearchPost, DueTable, PlaceBestPre, FindBestPre, FindBestPost};

use job::{CHUNKS, Programme, SizeTable, SlotSums};

// Where the best set begins, the steps taken, and whether the walk ended.
#[derive(Clone, Copy)]
pub struct Outcome {
    pub first: usize,
    pub steps: u32,
    pub ended: bool,
}

// What stands from a place on, one by one: a copy of a slice would ask libc for one that may
// overlap.
fn copy_end(from: &[u16; CHUNKS], k: usize, to: &mut [u16; CHUNKS])
    requires { k ≤ 500 }
    ensures { drop k to.new ≡ drop k from.now }
{
    for p in (k..CHUNKS).rev() {
        to[p] = from[p];
    }
}

// The set at the end of ids is met: it is copied if it has more chunks than the best one.
fn keep_best(k: usize, ids: &[u16; CHUNKS], best: &mut [u16; CHUNKS], count: &mut usize)
    requires { (k ≤ 500) × (count.old ≤ 500) }
    ensures { KeepBestPost k ids.now best.old count.old
        best.new count.new }
{
    let size = CHUNKS - k;
    if *count < size {
        copy_end(ids, k, best);
        *count = size;
    }
}

// Whether chunk i can be kept in front of the kept ones. Its need is written one place before
// theirs.
fn can_keep(
    i: u16,
    first: usize,
    held: usize,
    table: &SizeTable,
    dues: &[u16; CHUNKS],
    after: &SlotSums,
    needs: &mut [u64; CHUNKS],
) -> bool
    requires { CanKeepPre i first held (table_at table.now) dues.now after.now needs.old }
    ensures { CanKeepPost i first held (table_at table.now) dues.now after.now
        needs.old
        needs.new result }
{
    let k = first - 1;
    let d = usize::from(dues[usize::from(i) - 1]);
    let z = core_sizes::size_in(table, i, 0);
    let cand = u64::from(z) + after[d].max(core_decide::need_at(needs, first, 0));
    needs[k] = cand;
    cand <= after[0] && core_decide::need_at(needs, k, held) <= after[d - 1]
}

// The chunks i down to 1, beside the kept ones: chunk i is tried kept and then skipped, each try a
// step. left is one more than the steps of the budget not yet taken, and 0 once a step was wanted
// that the budget does not have; so is the result.
// Kept: the result is a number and no Option, since a compound result took half of the run time.
fn search(
    i: u16,
    first: usize,
    held: usize,
    table: &SizeTable,
    dues: &[u16; CHUNKS],
    after: &SlotSums,
    ids: &mut [u16; CHUNKS],
    needs: &mut [u64; CHUNKS],
    best: &mut [u16; CHUNKS],
    count: &mut usize,
    left: u64,
) -> u64
    requires { SearchPre i first held (table_at table.now) dues.now after.now ids.old needs.old best.old
        count.old }
    ensures { SearchPost i first held (table_at table.now) dues.now after.now
        ids.old needs.old best.old count.old left
        ids.new needs.new best.new count.new result }
{
    if i == 0 {
        return left;
    }
    if left < 2 {
        return 0;
    }
    let down = i - 1;
    let next = left - 1;
    let mut rest = next;
    if can_keep(i, first, held, table, dues, after, needs) {
        let k = first - 1;
        ids[k] = i;
        keep_best(k, ids, best, count);
        rest = search(
            down, k, held, table, dues, after, ids, needs, best, count, next,
        );
    }
    if rest < 2 {
        return 0;
    }
    let skipped = rest - 1;
    search(
        down, first, held, table, dues, after, ids, needs, best, count, skipped,
    )
}

// The due slot of each chunk, chunk 1's at place 0.
fn set_dues(p: Programme, dues: &mut [u16; CHUNKS])
    requires { (p.chunks ≤ 500) × (last_due p ≤ 3600) }
    ensures { DueTable p p.chunks dues.new }
{
    for n in 0..p.chunks {
        dues[usize::from(n)] = job::due_slot(p, n + 1) as u16;
    }
}

// The due slot and the base's bytes of each chunk of a set at the end of ids, at its place.
pub fn set_bases(
    p: Programme,
    table: &SizeTable,
    first: usize,
    ids: &[u16; CHUNKS],
    dues: &mut [u16; CHUNKS],
    bytes: &mut [u32; CHUNKS],
)
    requires { PlaceBestPre p first ids.now dues.old bytes.old }
    ensures { KeptIn p (table_at table.now) (drop first ids.now) first ids.now
        dues.new bytes.new }
{
    for q in (first..CHUNKS).rev() {
        let i = ids[q];
        dues[q] = job::due_slot(p, i) as u16;
        bytes[q] = core_sizes::size_in(table, i, 0);
    }
}

// The best set met within the budget, at the end of ids, with its due slots and bases. The kept set
// is empty at the start.
pub fn best_within(
    p: Programme,
    table: &SizeTable,
    after: &SlotSums,
    budget: u32,
    ids: &mut [u16; CHUNKS],
    dues: &mut [u16; CHUNKS],
    bytes: &mut [u32; CHUNKS],
) -> Outcome
    requires { FindBestPre p (table_at table.now) after.now ids.old dues.old bytes.old }
    ensures { FindBestPost p (table_at table.now) after.now budget
        result ids.new dues.new bytes.new }
{
    let held = job::held_most(p) as usize;
    let mut stack = [0u16; CHUNKS];
    let mut needs = [0u64; CHUNKS];
    let mut count: usize = 0;
    set_dues(p, dues);
    let all = budget as u64 + 1;
    let left = search(
        p.chunks, CHUNKS, held, table, dues, after, &mut stack, &mut needs, ids, &mut count, all,
    );
    let first = CHUNKS - count;
    set_bases(p, table, first, ids, dues, bytes);
    if left == 0 {
        Outcome {
            first,
            steps: budget,
            ended: false,
        }
    } else {
        Outcome {
            first,
            steps: (all - left) as u32,
            ended: true,
        }
    }
}
