// The tables of one trial: the kept chunks of the layers settled before, with layer n of chunk i
// added, at the end of tables of 500 places, in playing order.
ghost use Rattle.std.specs.Prelude.{◌≡◌, ◌≤◌};
ghost use Rattle.core_reasons.specs.lemmas.Tables.{level_in, SetTablesPre, SetTablesPost, FindShortPre};
ghost use Rattle.core_reasons.specs.lemmas.Tables.{FindShortPost};

use crate::passes;
use crate::passes::Stretch;
use job::{CHUNKS, Programme, SizeTable, SlotSums};

// How many layers chunk k has in the trial of layer n of chunk i. cap: how many the chunks before i
// may have.
fn level_of(levels: &[u8; CHUNKS], k: u16, i: u16, n: u8, cap: u8) -> u8
    requires { (1 ≤ k) × (k ≤ 500) × (n ≤ 3) }
    ensures { result ≡ level_in levels.now i n cap k }
{
    let have = levels[k as usize - 1];
    if k == i {
        n + 1
    } else if i < k {
        have.min(n + 1)
    } else {
        have.min(cap)
    }
}

// The due slots and the bytes of the kept chunks, from the last to the first. sums: the bytes of
// the first layers of each chunk, four places a chunk.
fn set_tables(
    p: Programme,
    sums: &SizeTable,
    levels: &[u8; CHUNKS],
    i: u16,
    n: u8,
    cap: u8,
    dues: &mut [u16; CHUNKS],
    bytes: &mut [u32; CHUNKS],
) -> usize
    requires { SetTablesPre p n cap }
    ensures { SetTablesPost p sums.now levels.now i n cap
        result dues.new bytes.new }
{
    let mut first = CHUNKS;
    for k in (1..p.chunks + 1).rev() {
        let m = level_of(levels, k, i, n, cap);
        if 0 < m {
            first -= 1;
            dues[first] = job::due_slot(p, k) as u16;
            bytes[first] = sums[(k as usize - 1) * 4 + (m as usize - 1)];
        }
    }
    first
}

// The stretch of a trial that can't be carried.
pub(crate) fn find_short(
    p: Programme,
    held: usize,
    sums: &SizeTable,
    after: &SlotSums,
    levels: &[u8; CHUNKS],
    i: u16,
    n: u8,
    cap: u8,
    dues: &mut [u16; CHUNKS],
    ready: &mut [u16; CHUNKS],
    bytes: &mut [u32; CHUNKS],
) -> Stretch
    requires { FindShortPre p held after.now n cap }
    ensures { FindShortPost p sums.now after.now levels.now i n cap result }
{
    let first = set_tables(p, sums, levels, i, n, cap, dues, bytes);
    core_decide::set_releases(held, dues, first, ready);
    passes::find_stretch(after, dues, ready, bytes, first)
}
