// Internal. Which layers of which chunks are carried, in time linear in slots + chunks x layers.
// The kept chunks stand at the end of tables of 500 places, in playing order, from a first place
// on. The passes serve any ascending set of kept chunks, over a part of the forecast that starts at
// any slot: sum_after and keep_bases for the base, then, for kept chunks with their due slots and
// bytes however they were found, set_releases and settle_layers. Sizes are those of the table that
// core_sizes' fill_sizes fills.
#![tactic(auto)]

ghost use Rattle.std.specs.Prelude.{◌≡◌, cond, ◌&&◌, ℕ, ◌+◌, ◌*◌, ◌-◌, ◌/◌, ◌<◌, ◌≤◌, max, min, length, get_or, take, drop, leb, ltb, ◌++◌};
ghost use Rattle.theory_basics.specs.Tests.{All};
ghost use Rattle.core_sizes.specs.Table.{table_at};
ghost use Rattle.fetch.specs.Marks.{bit};
ghost use Rattle.theory_plan.specs.lemmas.Trials.{rooms};
ghost use Rattle.theory_plan.specs.lemmas.Parts.{at, ForecastPart};
ghost use Rattle.core_moore_hodgson.specs.lemmas.Tables.{KeptIn};
ghost use Rattle.core_decide.specs.lemmas.Decision.{SumTable, KeepBasesPre, SettleBasesPre};
ghost use Rattle.core_decide.specs.lemmas.Decision.{stack_in, bases_in, Slot, TryLayerPre, TryLayerPost};
ghost use Rattle.core_decide.specs.lemmas.Decision.{SettleLayersPre, SettleLayersPost, SettleKeptPre};
ghost use Rattle.core_decide.specs.lemmas.Decision.{SettleKeptPost, DecidePre, DecidePost};
ghost use Rattle.theory_plan.specs.lemmas.Queue.{ones};

use job::{CHUNKS, Programme, SUMS, SizeTable, SlotSums};

// The forecast left after each slot, for a part of the forecast that starts at slot start. Sums in
// 64 bits: 3,600 slots need 36.
pub fn sum_after(part: &[u32], start: usize, after: &mut SlotSums)
    requires { ForecastPart start part.now × (length after.old ≡ 3601) }
    ensures { SumTable start part.now after.new }
{
    let base = start - 1;
    let mut sum: u64 = 0;
    after[base + part.len()..].fill(0);
    for u in (0..part.len()).rev() {
        sum += part[u] as u64;
        after[base + u] = sum;
    }
    after[..base].fill(sum);
}

// The need of the kept chunk so many places on, or 0 past the last.
pub fn need_at(needs: &[u64; CHUNKS], k: usize, held: usize) -> u64
    requires { (k ≤ 500) × (held ≤ 65535) × (length needs.now ≡ 500) }
    ensures { result ≡ get_or needs.now (k + held) 0 }
{
    needs.get(k + held).copied().unwrap_or(0)
}

// The base of each chunk from the last to the first. The kept chunks stand at the end of ids, in
// playing order.
pub fn keep_bases(
    p: Programme,
    table: &SizeTable,
    after: &SlotSums,
    ids: &mut [u16; CHUNKS],
    dues: &mut [u16; CHUNKS],
    bytes: &mut [u32; CHUNKS],
    needs: &mut [u64; CHUNKS],
) -> usize
    requires { KeepBasesPre p (table_at table.now) after.now ids.old dues.old bytes.old needs.old }
    ensures kept_in { KeptIn p (table_at table.now)
        (stack_in p (table_at table.now) (at after.now))
        result ids.new dues.new bytes.new }
    ensures room { length needs.new ≡ 500 }
{
    let held = job::held_most(p) as usize;
    let all = after[0];
    let mut last: u64 = 0;
    let mut first: usize = CHUNKS;
    for i in (1..=p.chunks).rev() {
        let d = job::due_slot(p, i);
        let k = first - 1;
        let z = core_sizes::size_in(table, i, 0);
        let cand = z as u64 + after[d].max(last);
        needs[k] = cand;
        if cand <= all && need_at(needs, k, held) <= after[d - 1] {
            ids[k] = i;
            dues[k] = d as u16;
            bytes[k] = z;
            first = k;
            last = cand;
        }
    }
    first
}

// The bases of the plan: by Moore-Hodgson where request 9 settles them, else in document 01's way.
pub fn settle_bases(
    p: Programme,
    table: &SizeTable,
    after: &SlotSums,
    ids: &mut [u16; CHUNKS],
    dues: &mut [u16; CHUNKS],
    bytes: &mut [u32; CHUNKS],
    needs: &mut [u64; CHUNKS],
) -> usize
    requires { SettleBasesPre p (table_at table.now) after.now ids.old dues.old bytes.old needs.old }
    ensures kept_in { KeptIn p (table_at table.now)
        (bases_in p (table_at table.now) (at after.now))
        result ids.new dues.new bytes.new }
    ensures room { length needs.new ≡ 500 }
{
    if core_moore_hodgson::applies(p, table) {
        core_moore_hodgson::keep_most(p, table, after, ids, dues, bytes)
    } else {
        keep_bases(p, table, after, ids, dues, bytes, needs)
    }
}

// The slot from which each kept chunk may begin.
pub fn set_releases(held: usize, dues: &[u16; CHUNKS], first: usize, ready: &mut [u16; CHUNKS])
    requires { (first ≤ 500) × (length dues.now ≡ 500) × (length ready.old ≡ 500) }
    ensures { (length ready.new ≡ 500)
        × (drop first ready.new ≡ take (500 - first) (ones held ++ drop first dues.now)) }
{
    for q in first..CHUNKS {
        ready[q] = if q - first < held { 1 } else { dues[q - held] };
    }
}

// The room of each kept chunk, from the first to the last.
fn find_rooms(
    all: u64,
    after: &SlotSums,
    ready: &[u16; CHUNKS],
    bytes: &[u32; CHUNKS],
    first: usize,
    room: &mut [u64; CHUNKS],
)
    requires { (first ≤ 500) × All Slot (drop first ready.now) }
    ensures { drop first room.new ≡ rooms (at after.now) all (drop first bytes.now)
        (drop first ready.now) }
{
    let mut left = all;
    for q in first..CHUNKS {
        let here = left.min(after[ready[q] as usize - 1]);
        room[q] = here;
        left = here.saturating_sub(bytes[q] as u64);
    }
}

// A chunk with the layer below takes the layer if what it then needs has room.
fn takes(mark: u8, n: u8, more: u64, room: u64) -> bool
    ensures { result ≡ bit mark n && leb more room }
{
    fetch::has(mark, n) && more <= room
}

// Layer n of each kept chunk, from the last to the first.
fn try_layer(
    table: &SizeTable,
    n: u8,
    after: &SlotSums,
    ids: &[u16; CHUNKS],
    dues: &[u16; CHUNKS],
    room: &[u64; CHUNKS],
    first: usize,
    bytes: &mut [u32; CHUNKS],
    mark: &mut [u8; CHUNKS],
)
    requires { TryLayerPre (table_at table.now) n after.now ids.now dues.now room.now first bytes.old
        mark.old }
    ensures { TryLayerPost (table_at table.now) n after.now ids.now
        dues.now room.now first bytes.old mark.old
        bytes.new mark.new }
{
    let mut need: u64 = 0;
    for k in (first..CHUNKS).rev() {
        let b = bytes[k];
        let m = mark[k];
        let z = core_sizes::size_in(table, ids[k], n as usize);
        let want = b as u64 + after[dues[k] as usize].max(need);
        let more = want + z as u64;
        if takes(m, n - 1, more, room[k]) {
            bytes[k] = b + z;
            mark[k] = fetch::with(m, n);
            need = more;
        } else {
            need = want;
        }
    }
}

// All layers above the base.
pub fn settle_layers(
    layers: usize,
    table: &SizeTable,
    all: u64,
    after: &SlotSums,
    ids: &[u16; CHUNKS],
    dues: &[u16; CHUNKS],
    ready: &[u16; CHUNKS],
    first: usize,
    bytes: &mut [u32; CHUNKS],
    room: &mut [u64; CHUNKS],
    mark: &mut [u8; CHUNKS],
)
    requires { SettleLayersPre layers (table_at table.now) after.now ids.now dues.now ready.now first
        bytes.old room.old mark.old }
    ensures { SettleLayersPost layers (table_at table.now) all after.now ids.now
        dues.now ready.now first bytes.old mark.old
        bytes.new mark.new }
{
    for n in 1..layers {
        find_rooms(all, after, ready, bytes, first, room);
        try_layer(table, n as u8, after, ids, dues, room, first, bytes, mark);
    }
}

// The releases and the marks of kept chunks, from place first on, however they were found: the
// layers above their bases follow.
pub fn settle_kept(
    p: Programme,
    layers: usize,
    table: &SizeTable,
    after: &SlotSums,
    first: usize,
    ids: &[u16; CHUNKS],
    dues: &[u16; CHUNKS],
    bytes: &mut [u32; CHUNKS],
    room: &mut [u64; CHUNKS],
    ready: &mut [u16; CHUNKS],
    mark: &mut [u8; CHUNKS],
)
    requires { SettleKeptPre p layers (table_at table.now) after.now first ids.now dues.now bytes.old
        room.old ready.old mark.old }
    ensures { SettleKeptPost p layers (table_at table.now) after.now first
        ids.now
        ready.new mark.new }
{
    let held = job::held_most(p) as usize;
    let total = after[0];
    set_releases(held, dues, first, ready);
    settle_layers(
        layers, table, total, after, ids, dues, ready, first, bytes, room, mark,
    );
}

// The decision over a part of the forecast that starts at slot start: the kept chunks, their
// releases and their marks, from the place handed back on.
pub fn decide(
    p: Programme,
    layers: usize,
    table: &SizeTable,
    part: &[u32],
    start: usize,
    ids: &mut [u16; CHUNKS],
    ready: &mut [u16; CHUNKS],
    mark: &mut [u8; CHUNKS],
) -> usize
    requires { DecidePre p layers (table_at table.now) start part.now ids.old ready.old mark.old }
    ensures { DecidePost p layers (table_at table.now) start part.now
        result ids.new ready.new mark.new }
{
    // Both tables are written before they are read. A filling that is no constant is stored in wide
    // words, faster than cleared.
    let unset = part.len() as u64;
    let mut after = [unset; SUMS];
    let mut room = [unset; CHUNKS];
    let mut dues = [0u16; CHUNKS];
    let mut bytes = [0u32; CHUNKS];
    sum_after(part, start, &mut after);
    let first = settle_bases(p, table, &after, ids, &mut dues, &mut bytes, &mut room);
    settle_kept(
        p, layers, table, &after, first, ids, &dues, &mut bytes, &mut room, ready, mark,
    );
    first
}
