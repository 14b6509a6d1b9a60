// Internal. Sets of bases fetched forward (theory_most, Statement): a set is a slice of chunk
// numbers in playing order, with the level up to which it has used the forecast. Levels of chunks
// stand in tables by chunk number. Here are the tests of one set, and of one set against another.
#![tactic(auto)]

ghost use Rattle.std.specs.Prelude.{◌≡◌, ℕ, ◌+◌, ◌*◌, ◌-◌, ◌<◌, ◌≤◌, max, length};
ghost use Rattle.core_sizes.specs.Table.{table_at};
ghost use Rattle.core_covering.specs.lemmas.Tables.{SetLevelsPost, SetLevelsPre, WaitPost, WaitPre};
ghost use Rattle.core_covering.specs.lemmas.Tables.{NextFromPost, HopelessPost, HopelessPre, CoversPost};
ghost use Rattle.core_covering.specs.lemmas.Tables.{CoversPre, WaitsCoveredPost, WaitsCoveredPre, ForwardPost};
ghost use Rattle.core_covering.specs.lemmas.Tables.{ForwardPre, PlacedPost};

use job::{CHUNKS, Programme, SizeTable, SlotSums};

// Numbers in a table by chunk number: place 0 is no chunk's.
pub const LEVELS: usize = 501;

// Sets the tables by chunk: the forecast up to the end of its due slot (ends) and before that slot
// (opens), its base's bytes, and the smallest base of a later chunk (16,777,216 behind the last).
pub fn set_levels(
    p: Programme,
    table: &SizeTable,
    after: &SlotSums,
    ends: &mut [u64; LEVELS],
    opens: &mut [u64; LEVELS],
    bases: &mut [u64; LEVELS],
    smallest: &mut [u64; LEVELS],
)
    requires { SetLevelsPre p (table_at table.now) after.now }
    ensures { SetLevelsPost p (table_at table.now) after.now
        ends.new opens.new bases.new smallest.new }
{
    let all = after[0];
    let mut least: u64 = 16777216;
    for i in (0..p.chunks).rev() {
        let k = i + 1;
        let d = job::due_slot(p, k);
        let base = u64::from(core_sizes::size_in(table, k, 0));
        let c = usize::from(k);
        ends[c] = all.saturating_sub(after[d]);
        opens[c] = all.saturating_sub(after[d - 1]);
        bases[c] = base;
        smallest[c] = least;
        least = least.min(base);
    }
}

// The level before which a set's next but q can't begin: the opening of the kept chunk H places
// before it, 0 if there is none.
fn wait_of(held: usize, opens: &[u64; LEVELS], set: &[u16], q: usize) -> u64
    requires { WaitPre held opens.now set.now q }
    ensures { WaitPost held opens.now set.now q result }
{
    let at = set.len() + q;
    if at < held {
        0
    } else {
        opens[usize::from(set[at - held])]
    }
}

// The level before which a set's next chunk can't begin.
pub fn next_from(held: usize, opens: &[u64; LEVELS], set: &[u16], used: u64) -> u64
    requires { WaitPre held opens.now set.now 0 }
    ensures { NextFromPost held opens.now set.now used result }
{
    used.max(wait_of(held, opens, set, 0))
}

// Whether a set can't reach the target: as many bases as it lacks need more, by the row of the
// chunks behind it, than is there from its level on.
pub fn is_hopeless(
    target: usize,
    held: usize,
    all: u64,
    row: &[u64],
    opens: &[u64; LEVELS],
    set: &[u16],
    used: u64,
) -> bool
    requires { HopelessPre target held row.now opens.now set.now used }
    ensures { HopelessPost target held all row.now opens.now set.now
        used result }
{
    let count = set.len();
    count < target && all < next_from(held, opens, set, used) + row[target - count]
}

// Whether each level that u must wait for is no higher than s must be at by then. The waits rise,
// so from the last one down the first that s has used already ends it.
fn waits_covered(
    held: usize,
    smallest: u64,
    opens: &[u64; LEVELS],
    u: &[u16],
    lead: usize,
    s: &[u16],
    used_s: u64,
) -> bool
    requires { WaitsCoveredPre held smallest opens.now u.now lead s.now used_s }
    ensures { WaitsCoveredPost held smallest opens.now u.now lead
        s.now used_s result }
{
    for q in (0..held - lead).rev() {
        let wait = wait_of(held, opens, u, q);
        if wait <= used_s {
            return true;
        }
        let at = q + lead;
        let level = used_s + at as u64 * smallest;
        if level.max(wait_of(held, opens, s, at)) < wait {
            return false;
        }
    }
    true
}

// Whether set u, which has used up to used_u, covers set s: then whatever s reaches, u reaches.
// Both are sets of the same first chunks, and no later base is smaller than `smallest`.
pub fn covers(
    held: usize,
    smallest: u64,
    opens: &[u64; LEVELS],
    u: &[u16],
    used_u: u64,
    s: &[u16],
    used_s: u64,
) -> bool
    requires { CoversPre held smallest opens.now u.now used_u s.now used_s }
    ensures { CoversPost held smallest opens.now u.now used_u
        s.now used_s result }
{
    if u.len() < s.len() {
        return false;
    }
    let lead = u.len() - s.len();
    if held <= lead {
        return true;
    }
    let level = used_s + lead as u64 * smallest;
    used_u <= level.max(wait_of(held, opens, s, lead))
        && waits_covered(held, smallest, opens, u, lead, s, used_s)
}

// Where H is at most 1: each chunk in turn, kept if it is in time. Writes the kept ones to the
// front of ids and returns how many they are.
pub fn keep_forward(
    count: usize,
    held: usize,
    ends: &[u64; LEVELS],
    opens: &[u64; LEVELS],
    bases: &[u64; LEVELS],
    ids: &mut [u16; CHUNKS],
) -> usize
    requires { ForwardPre count held ends.now opens.now bases.now }
    ensures { ForwardPost count held ends.now opens.now bases.now result
        ids.new }
{
    let mut used: u64 = 0;
    let mut last: u64 = 0;
    let mut kept: usize = 0;
    for i in 0..count {
        let k = i + 1;
        let own = opens[k];
        // A chunk can't begin before the last kept one opens, or, if none may be held, its own.
        let wait = if 0 < held { last } else { own };
        let level = used.max(wait) + bases[k];
        if level <= ends[k] {
            ids[kept] = k as u16;
            used = level;
            last = own;
            kept += 1;
        }
    }
    kept
}

// Copies a set to the end of ids, and returns the place at which it begins.
pub fn place_at_end(set: &[u16], ids: &mut [u16; CHUNKS]) -> usize
    requires { length set.now ≤ 500 }
    ensures { PlacedPost set.now result ids.new }
{
    let first = CHUNKS - set.len();
    ids[first..].copy_from_slice(set);
    first
}
