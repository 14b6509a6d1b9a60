// Internal. A front: sets of bases of the same first chunks, of which at least one can still reach
// the target if any set can (theory_most, Statement, `Settled`). A front has room for 64 sets; one
// place more holds the set that is being settled.
#![tactic(auto)]

ghost use Rattle.std.specs.Prelude.{◌≡◌};
ghost use Rattle.core_front.specs.lemmas.Tables.{CopySetPre, CopySetPost, MoveSetPre, MoveSetPost, TrialPre};
ghost use Rattle.core_front.specs.lemmas.Tables.{SetCoversPre, SetCoversPost, IsCoveredPost, IsHopelessPost};
ghost use Rattle.core_front.specs.lemmas.Tables.{SettlePre, TakeOutPost, SettlePost};

use core_covering::LEVELS;
use job::CHUNKS;

// How many sets a front has room for.
pub const ROOM: usize = 64;

// One place more holds the set that is being settled.
pub const PLACES: usize = 65;

// The chunk numbers in all places, 500 each.
pub const IDS: usize = 32500;

// The sets of a front. The chunk numbers of set a stand in `chunks` from place 500 a on; `counts`
// says how many they are, and `useds` what the set has used.
#[derive(Drop)]
pub struct Sets {
    pub chunks: [u16; IDS],
    pub counts: [u16; PLACES],
    pub useds: [u64; PLACES],
}

// What sets are judged by: the target, how many chunks may be held, the whole forecast, and a
// number that no later base is below.
#[derive(Clone, Copy)]
pub struct Measure {
    pub target: usize,
    pub held: usize,
    pub all: u64,
    pub smallest: u64,
}

// How many sets a front has, and whether no set was dropped for want of room.
#[derive(Clone, Copy)]
pub struct Front {
    pub sets: usize,
    pub whole: bool,
}

// Copies set a of one front to place b of another.
pub fn copy_set(sets: &Sets, a: usize, to: &mut Sets, b: usize)
    requires { CopySetPre sets.now a to.old b }
    ensures { CopySetPost sets.now a to.old b to.new }
{
    let count = sets.counts[a];
    let n = usize::from(count);
    let from = a * CHUNKS;
    let start = b * CHUNKS;
    to.chunks[start..start + n].copy_from_slice(&sets.chunks[from..from + n]);
    to.counts[b] = count;
    to.useds[b] = sets.useds[a];
}

// Moves set a to place b, which is not behind it.
fn move_set(sets: &mut Sets, a: usize, b: usize)
    requires { MoveSetPre sets.old a b }
    ensures { MoveSetPost sets.old a b sets.new }
{
    let count = sets.counts[a];
    let from = a * CHUNKS;
    let to = from + usize::from(count);
    sets.chunks.copy_within(from..to, b * CHUNKS);
    sets.counts[b] = count;
    sets.useds[b] = sets.useds[a];
}

// Whether set a covers set b.
fn set_covers(by: Measure, opens: &[u64; LEVELS], sets: &Sets, a: usize, b: usize) -> bool
    requires { SetCoversPre by opens.now sets.now a b }
    ensures { SetCoversPost by opens.now sets.now a b result }
{
    let from_a = a * CHUNKS;
    let to_a = from_a + usize::from(sets.counts[a]);
    let from_b = b * CHUNKS;
    let to_b = from_b + usize::from(sets.counts[b]);
    core_covering::covers(
        by.held,
        by.smallest,
        opens,
        &sets.chunks[from_a..to_a],
        sets.useds[a],
        &sets.chunks[from_b..to_b],
        sets.useds[b],
    )
}

// Whether one of the first n sets covers the one in place n.
fn is_covered(by: Measure, opens: &[u64; LEVELS], sets: &Sets, n: usize) -> bool
    requires { TrialPre by opens.now sets.now n }
    ensures { IsCoveredPost by opens.now sets.now n result }
{
    for a in 0..n {
        if set_covers(by, opens, sets, a, n) {
            return true;
        }
    }
    false
}

// Takes out those of the first n sets that the one in place n covers; the others move up. Returns
// how many are left.
fn take_covered_out(by: Measure, opens: &[u64; LEVELS], sets: &mut Sets, n: usize) -> usize
    requires { TrialPre by opens.now sets.old n }
    ensures { TakeOutPost by opens.now sets.old n result sets.new }
{
    let mut left: usize = 0;
    for a in 0..n {
        if !set_covers(by, opens, sets, n, a) {
            move_set(sets, a, left);
            left += 1;
        }
    }
    left
}

// Whether the set in place n can't reach the target; row: the needs of the chunks behind it.
fn is_hopeless(by: Measure, row: &[u64], opens: &[u64; LEVELS], sets: &Sets, n: usize) -> bool
    requires { SettlePre by row.now opens.now sets.now n }
    ensures { IsHopelessPost by row.now opens.now sets.now n result }
{
    let from = n * CHUNKS;
    let to = from + usize::from(sets.counts[n]);
    core_covering::is_hopeless(
        by.target,
        by.held,
        by.all,
        row,
        opens,
        &sets.chunks[from..to],
        sets.useds[n],
    )
}

// Settles the set in place n beside the n sets before it: it is left out if it can't reach the
// target or one of them covers it; else those that it covers give way to it. Where there is no room
// left it is dropped, and the front says that it is not whole.
pub fn settle(by: Measure, row: &[u64], opens: &[u64; LEVELS], sets: &mut Sets, n: usize) -> Front
    requires { SettlePre by row.now opens.now sets.old n }
    ensures { SettlePost by row.now opens.now sets.old n result sets.new }
{
    if is_hopeless(by, row, opens, sets, n) || is_covered(by, opens, sets, n) {
        return Front {
            sets: n,
            whole: true,
        };
    }
    let left = take_covered_out(by, opens, sets, n);
    if ROOM <= left {
        return Front {
            sets: left,
            whole: false,
        };
    }
    move_set(sets, n, left);
    Front {
        sets: left + 1,
        whole: true,
    }
}
