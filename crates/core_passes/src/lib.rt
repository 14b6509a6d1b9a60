// Internal. The search for a largest set of bases: passes over the chunks with a front of sets, for
// one target after the other from the bound down (theory_most, Statement, `Pass`). A pass that
// dropped no set and ends with none that reaches the target lowers the bound.
#![tactic(auto)]

ghost use Rattle.std.specs.Prelude.{◌≡◌, true, false, ◌<◌, ◌≤◌, length};
ghost use Rattle.core_passes.specs.lemmas.Tables.{AppendPre, AppendPost, OfferPre, OfferPost, KeepPre, KeepPost};
ghost use Rattle.core_passes.specs.lemmas.Tables.{StepPre, StepPost, CopyFrontPre, CopyFrontPost};
ghost use Rattle.core_passes.specs.lemmas.Tables.{TurnPre, TurnPost, PassPre, PassPost, LargestPost};
ghost use Rattle.core_passes.specs.lemmas.Tables.{LookPre, LookPost, SeekPre, SeekPost};

use core_covering::LEVELS;
use core_front::{Front, IDS, Measure, PLACES, Sets};
use job::CHUNKS;

// Numbers in a row of needs.
const ROW: usize = 501;

// The next chunk: its number, its base's bytes, and the forecast up to the end of its due slot.
#[derive(Clone, Copy)]
struct Chunk {
    pub number: u16,
    pub base: u64,
    pub end: u64,
}

// A film: how many chunks it has, how many may be held, and the whole forecast.
#[derive(Clone, Copy)]
pub struct Film {
    pub count: usize,
    pub held: usize,
    pub all: u64,
}

// A set in a front: its place and how many chunks it has; and the most bases that any list in
// playing order has.
#[derive(Clone, Copy)]
struct Found {
    pub place: usize,
    pub count: usize,
    pub bound: usize,
}

// Where the set found begins in ids, and the most bases that any list in playing order has.
#[derive(Clone, Copy)]
pub struct Sought {
    pub first: usize,
    pub bound: usize,
}

// Puts a chunk behind the set in place b, which has then used up to `used`.
fn append(number: u16, used: u64, sets: &mut Sets, b: usize)
    requires { AppendPre sets.old b }
    ensures { AppendPost number used sets.old b sets.new }
{
    let count = sets.counts[b];
    let at = b * CHUNKS + usize::from(count);
    sets.chunks[at] = number;
    sets.counts[b] = count + 1;
    sets.useds[b] = used;
}

// Offers set a of a front, without the next chunk, to the next front, which has n sets.
fn skip(
    by: Measure,
    row: &[u64],
    opens: &[u64; LEVELS],
    sets: &Sets,
    a: usize,
    next: &mut Sets,
    n: usize,
) -> Front
    requires { OfferPre by row.now opens.now sets.now a next.old n }
    ensures { OfferPost by row.now opens.now sets.now a next.old n result next.new }
{
    core_front::copy_set(sets, a, next, n);
    core_front::settle(by, row, opens, next, n)
}

// Offers set a of a front with the next chunk to the next front, if the chunk is in time behind it.
fn keep(
    by: Measure,
    chunk: Chunk,
    row: &[u64],
    opens: &[u64; LEVELS],
    sets: &Sets,
    a: usize,
    next: &mut Sets,
    n: usize,
) -> Front
    requires { KeepPre by chunk row.now opens.now sets.now a next.old n }
    ensures { KeepPost by chunk row.now opens.now sets.now a next.old n result next.new }
{
    let from = a * CHUNKS;
    let to = from + usize::from(sets.counts[a]);
    let level = core_covering::next_from(by.held, opens, &sets.chunks[from..to], sets.useds[a]);
    let used = level + chunk.base;
    if chunk.end < used {
        return Front {
            sets: n,
            whole: true,
        };
    }
    core_front::copy_set(sets, a, next, n);
    append(chunk.number, used, next, n);
    core_front::settle(by, row, opens, next, n)
}

// The next front: each set of the front without the next chunk, and with it if that is in time.
fn step(
    by: Measure,
    chunk: Chunk,
    row: &[u64],
    opens: &[u64; LEVELS],
    sets: &Sets,
    n: usize,
    next: &mut Sets,
) -> Front
    requires { StepPre by chunk row.now opens.now sets.now n next.old }
    ensures { StepPost by chunk row.now opens.now sets.now n result next.new }
{
    let mut kept: usize = 0;
    let mut whole = true;
    for a in 0..n {
        let without = skip(by, row, opens, sets, a, next, kept);
        let with = keep(by, chunk, row, opens, sets, a, next, without.sets);
        kept = with.sets;
        whole = whole && without.whole && with.whole;
    }
    Front { sets: kept, whole }
}

// Copies the first n sets of a front to another.
fn copy_front(sets: &Sets, n: usize, to: &mut Sets)
    requires { CopyFrontPre sets.now n to.old }
    ensures { CopyFrontPost sets.now n to.new }
{
    for a in 0..n {
        core_front::copy_set(sets, a, to, a);
    }
}

// One turn of a pass: the next front takes the place of the front after chunk i. Returns how many
// sets it has, and whether none was dropped.
fn turn(
    film: Film,
    target: usize,
    i: usize,
    ends: &[u64; LEVELS],
    opens: &[u64; LEVELS],
    bases: &[u64; LEVELS],
    smallest: &[u64; LEVELS],
    work: &[u64],
    sets: &mut Sets,
    n: usize,
    next: &mut Sets,
) -> Front
    requires { TurnPre film target i ends.now opens.now bases.now smallest.now work.now
        sets.old n next.old }
    ensures { TurnPost film target i ends.now opens.now bases.now
        smallest.now work.now sets.old n result sets.new next.new }
{
    let k = i + 1;
    let from = k * ROW;
    let by = Measure {
        target,
        held: film.held,
        all: film.all,
        smallest: smallest[k],
    };
    let chunk = Chunk {
        number: k as u16,
        base: bases[k],
        end: ends[k],
    };
    let made = step(by, chunk, &work[from..from + ROW], opens, sets, n, next);
    copy_front(next, made.sets, sets);
    made
}

// One pass over all chunks with a target, from the empty set on. The sets at the end stand in the
// first front.
fn pass(
    film: Film,
    target: usize,
    ends: &[u64; LEVELS],
    opens: &[u64; LEVELS],
    bases: &[u64; LEVELS],
    smallest: &[u64; LEVELS],
    work: &[u64],
    sets: &mut Sets,
    next: &mut Sets,
) -> Front
    requires { PassPre film target ends.now opens.now bases.now smallest.now work.now
        sets.old next.old }
    ensures { PassPost film target ends.now opens.now bases.now
        smallest.now work.now result sets.new next.new }
{
    sets.counts[0] = 0;
    sets.useds[0] = 0;
    let mut n: usize = 1;
    let mut whole = true;
    for i in 0..film.count {
        let made = turn(
            film, target, i, ends, opens, bases, smallest, work, sets, n, next,
        );
        n = made.sets;
        whole = whole && made.whole;
    }
    Front { sets: n, whole }
}

// The place of a set of most chunks among the first n; 0 where there is none.
fn largest_set(counts: &[u16; PLACES], n: usize) -> usize
    requires { n ≤ 64 }
    ensures { LargestPost counts.now n result }
{
    let mut best: usize = 0;
    for a in 0..n {
        if counts[best] < counts[a] {
            best = a;
        }
    }
    best
}

// Whether a front of n sets, of which the largest has so many chunks, reaches the target.
fn is_reached(target: usize, n: usize, count: usize) -> bool
    ensures found { result ≡ true → (0 < n) × (target ≤ count) }
    ensures none { result ≡ false → 0 < n → count < target }
{
    0 < n && target <= count
}

// No set, beside a bound.
fn none_found(bound: usize) -> Found
    ensures { (result.place ≡ 0) × (result.count ≡ 0) × (result.bound ≡ bound) }
{
    Found {
        place: 0,
        count: 0,
        bound,
    }
}

// Looks for a set of more than `has` bases: passes for one target after the other, from the bound
// down, and at most so many. The count is 0 if none is found.
fn look(
    film: Film,
    bound: usize,
    has: usize,
    passes: u32,
    ends: &[u64; LEVELS],
    opens: &[u64; LEVELS],
    bases: &[u64; LEVELS],
    smallest: &[u64; LEVELS],
    work: &[u64],
    sets: &mut Sets,
    next: &mut Sets,
) -> Found
    requires { LookPre film bound ends.now opens.now bases.now smallest.now work.now
        sets.old next.old }
    ensures { LookPost film bound has ends.now opens.now bases.now
        smallest.now work.now result sets.new }
{
    let mut most = bound;
    let lowest = has.max(bound.saturating_sub(passes as usize));
    for below in (lowest..bound).rev() {
        let target = below + 1;
        let front = pass(film, target, ends, opens, bases, smallest, work, sets, next);
        let place = largest_set(&sets.counts, front.sets);
        let count = usize::from(sets.counts[place]);
        if is_reached(target, front.sets, count) {
            return Found {
                place,
                count,
                bound: most,
            };
        }
        if front.whole {
            most = below;
        }
    }
    none_found(most)
}

// Looks for a set of more bases than the one at the end of ids, from place first on, in at most so
// many passes. The set found takes its place.
pub fn seek(
    film: Film,
    bound: usize,
    passes: u32,
    ends: &[u64; LEVELS],
    opens: &[u64; LEVELS],
    bases: &[u64; LEVELS],
    smallest: &[u64; LEVELS],
    work: &[u64],
    first: usize,
    ids: &mut [u16; CHUNKS],
) -> Sought
    requires { SeekPre film bound ends.now opens.now bases.now smallest.now work.now first ids.old }
    ensures { SeekPost film bound ends.now opens.now bases.now
        smallest.now work.now first ids.old
        result ids.new }
{
    let mut sets = Sets {
        chunks: [0; IDS],
        counts: [0; PLACES],
        useds: [0; PLACES],
    };
    let mut next = Sets {
        chunks: [0; IDS],
        counts: [0; PLACES],
        useds: [0; PLACES],
    };
    let has = CHUNKS - first;
    let found = look(
        film, bound, has, passes, ends, opens, bases, smallest, work, &mut sets, &mut next,
    );
    if found.count <= has {
        return Sought {
            first,
            bound: found.bound,
        };
    }
    let from = found.place * CHUNKS;
    let to = from + found.count;
    let start = core_covering::place_at_end(&sets.chunks[from..to], ids);
    Sought {
        first: start,
        bound: found.bound,
    }
}
