// Internal. Request 14: a line under each layer that the plan doesn't carry, by chunk and then
// layer, into a lent buffer that has room for them. A line of the first kind takes two passes over
// the kept chunks, so all lines take time linear in lines x chunks.
#![tactic(auto)]

use job::{CHUNKS, Programme, SizeTable, SlotSums};

mod passes;
mod sentences;
mod stretch;

ghost use Rattle.std.specs.Prelude.{◌≡◌};
ghost use Rattle.core_reasons.specs.lemmas.All.{cap_of, PutLinePre, PutLinePost, PutChunkPre, PutChunkPost};
ghost use Rattle.core_reasons.specs.lemmas.All.{PutReasonsPre, PutReasonsPost};

// How many layers the chunks before the missing one may have in its trial. most: bases were settled
// by request 9.
fn cap_of(most: bool, n: u8) -> u8
    ensures { result ≡ cap_of most n }
{
    if most && n == 0 { 1 } else { n }
}

// The line under layer n of chunk i. have: how many layers the plan carries of it.
fn put_line(
    p: Programme,
    held: usize,
    most: bool,
    sums: &SizeTable,
    after: &SlotSums,
    levels: &[u8; CHUNKS],
    i: u16,
    n: u8,
    have: u8,
    dues: &mut [u16; CHUNKS],
    ready: &mut [u16; CHUNKS],
    bytes: &mut [u32; CHUNKS],
    out: &mut [u8],
    at: usize,
) -> usize
    requires { PutLinePre p held most sums.now after.now levels.now i n have out.old at }
    ensures { PutLinePost p most sums.now after.now levels.now i n
        out.old at
        out.new result }
{
    let chunk = i as u64;
    let layer = n as u64;
    if n == have {
        let cap = cap_of(most, n);
        let s = stretch::find_short(p, held, sums, after, levels, i, n, cap, dues, ready, bytes);
        sentences::put_short(out, at, chunk, layer, s)
    } else {
        sentences::put_lower(out, at, chunk, layer, layer - 1)
    }
}

// The lines of chunk i.
fn put_chunk(
    p: Programme,
    held: usize,
    layers: u8,
    most: bool,
    sums: &SizeTable,
    after: &SlotSums,
    levels: &[u8; CHUNKS],
    i: u16,
    dues: &mut [u16; CHUNKS],
    ready: &mut [u16; CHUNKS],
    bytes: &mut [u32; CHUNKS],
    out: &mut [u8],
    at: usize,
) -> usize
    requires { PutChunkPre p held layers most sums.now after.now levels.now i out.old at }
    ensures { PutChunkPost p layers most sums.now after.now levels.now i
        out.old at
        out.new result }
{
    let have = levels[i as usize - 1];
    let mut next = at;
    for n in have..layers {
        next = put_line(
            p, held, most, sums, after, levels, i, n, have, dues, ready, bytes, out, next,
        );
    }
    next
}

// All lines of a plan. layers: how many the job has. levels: how many the plan carries of each
// chunk. sums: the bytes of the first layers of each chunk, four places a chunk. after: what is
// forecast after each slot.
pub fn put_reasons(
    p: Programme,
    held: usize,
    layers: u8,
    most: bool,
    sums: &SizeTable,
    after: &SlotSums,
    levels: &[u8; CHUNKS],
    out: &mut [u8],
) -> usize
    requires { PutReasonsPre p held layers most sums.now after.now levels.now out.old }
    ensures { PutReasonsPost p layers most sums.now after.now levels.now
        out.old
        out.new result }
{
    let mut dues = [0u16; CHUNKS];
    let mut ready = [0u16; CHUNKS];
    let mut bytes = [0u32; CHUNKS];
    let mut next = 0;
    for k in 0..p.chunks {
        let i = k + 1;
        next = put_chunk(
            p, held, layers, most, sums, after, levels, i, &mut dues, &mut ready, &mut bytes, out,
            next,
        );
    }
    next
}
