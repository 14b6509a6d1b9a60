// The two linear passes over the kept chunks, with the missing layer among their bytes. The kept
// chunks stand at the end of tables of 500 places, in playing order, from a first place on: bytes,
// due slots, and the slots from which they can begin. `after`: what is forecast after each slot.
ghost use Rattle.std.specs.Prelude.{◌≡◌, ◌&&◌, ◌+◌, ◌-◌, ◌≤◌, ◌<◌, ltb};
ghost use Rattle.core_reasons.specs.lemmas.Passes.{FindStretchPre, FindBeginPre, late_in, back_in, begun};
ghost use Rattle.core_reasons.specs.lemmas.Passes.{starts_in, FindStretchPost};

use job::{CHUNKS, SlotSums};

// A stretch of slots, what it carries and what it needs.
#[derive(Clone, Copy)]
pub struct Stretch {
    pub first: u16,
    pub last: u16,
    pub carry: u64,
    pub need: u64,
}

// The first slot of a stretch, what the stretch carries and what it needs.
#[derive(Clone, Copy)]
struct Begin {
    first: u16,
    carry: u64,
    need: u64,
}

// Forward: the first kept chunk that has its last byte after its due slot, if each has its bytes as
// early as can be; else 500.
fn find_late(
    after: &SlotSums,
    dues: &[u16; CHUNKS],
    ready: &[u16; CHUNKS],
    bytes: &[u32; CHUNKS],
    first: usize,
) -> usize
    requires { FindStretchPre after.now dues.now ready.now first }
    ensures { result ≡ first
        + late_in after.now dues.now ready.now bytes.now first }
{
    let all = after[0];
    let mut used: u64 = 0;
    for q in first..CHUNKS {
        let r = ready[q] as usize - 1;
        let d = dues[q] as usize;
        let v = used.max(all.saturating_sub(after[r])) + u64::from(bytes[q]);
        if all.saturating_sub(after[d]) < v {
            return q;
        }
        used = v;
    }
    CHUNKS
}

// The kept chunk at h can begin later than the one before it, and the bytes from there on exceed
// the forecast up to the last slot.
fn starts(ready: &[u16; CHUNKS], first: usize, h: usize, most: u64, reach: u64) -> bool
    requires { (first ≤ h) × (h < 500) }
    ensures { result ≡ starts_in ready.now first (h - first) && ltb most reach }
{
    most < reach && (h == first || ready[h - 1] < ready[h])
}

// Back from the late chunk m: where the stretch begins, what it carries and what it needs. most:
// the forecast up to m's due slot.
// Kept: zeros where no chunk starts it, as in the meaning; the pass always finds one.
fn find_begin(
    after: &SlotSums,
    ready: &[u16; CHUNKS],
    bytes: &[u32; CHUNKS],
    first: usize,
    most: u64,
    m: usize,
) -> Begin
    requires { FindBeginPre after.now ready.now first m }
    ensures { begun result ≡ back_in after.now ready.now bytes.now first most m }
{
    let all = after[0];
    let mut sum: u64 = 0;
    for h in (first..m + 1).rev() {
        let slot = ready[h];
        let r = slot as usize - 1;
        let t = sum + u64::from(bytes[h]);
        let before = all.saturating_sub(after[r]);
        let reach = before + t;
        if starts(ready, first, h, most, reach) {
            return Begin {
                first: slot,
                carry: most.saturating_sub(before),
                need: t,
            };
        }
        sum = t;
    }
    Begin {
        first: 0,
        carry: 0,
        need: sum,
    }
}

// The stretch that a line names, for kept chunks that can't be carried: its last slot by the pass
// forward, its first one by the pass back.
// Kept: zeros where no chunk is late. No caller asks then, so an Option would only be unwrapped.
pub(crate) fn find_stretch(
    after: &SlotSums,
    dues: &[u16; CHUNKS],
    ready: &[u16; CHUNKS],
    bytes: &[u32; CHUNKS],
    first: usize,
) -> Stretch
    requires { FindStretchPre after.now dues.now ready.now first }
    ensures { FindStretchPost after.now dues.now ready.now bytes.now
        first
        result }
{
    let m = find_late(after, dues, ready, bytes, first);
    if m < CHUNKS {
        let last = dues[m];
        let most = after[0].saturating_sub(after[last as usize]);
        let begin = find_begin(after, ready, bytes, first, most, m);
        Stretch {
            first: begin.first,
            last,
            carry: begin.carry,
            need: begin.need,
        }
    } else {
        Stretch {
            first: 0,
            last: 0,
            carry: 0,
            need: 0,
        }
    }
}
