// What the tests count. The first 24 numbers are flags: so many jobs, lists or plans had them.
// Kept: the numbers are places of one array, which is printed by ranges of them.
pub(crate) const JOBS: u16 = 0;

pub(crate) const THREE_LAYERS: u16 = 1;

pub(crate) const FOUR_LAYERS: u16 = 2;

pub(crate) const UNEVEN: u16 = 3;

pub(crate) const NONE_HELD: u16 = 4;

pub(crate) const LIMIT_REST: u16 = 5;

pub(crate) const EMPTY: u16 = 6;

pub(crate) const BINDING: u16 = 7;

pub(crate) const MOORE_HODGSON: u16 = 8;

pub(crate) const LISTS: u16 = 9;

pub(crate) const ANY_ORDER: u16 = 10;

// Of layer 0; those of the layers above stand after it.
pub(crate) const BY_LAYER: u16 = 11;

pub(crate) const WHOLE: u16 = 15;

pub(crate) const MOST: u16 = 16;

pub(crate) const BROKEN: u16 = 17;

pub(crate) const BEATEN: u16 = 18;

pub(crate) const SAME_MARKS: u16 = 19;

pub(crate) const SAME_COUNTS: u16 = 20;

pub(crate) const SAME_ROWS: u16 = 21;

pub(crate) const PASSED: u16 = 22;

pub(crate) const ORDERED: u16 = 23;

pub(crate) const BASES: u16 = 24;

pub(crate) const UPPERS: u16 = 25;

pub(crate) const ROWS: u16 = 26;

pub(crate) const PAIRS: u16 = 27;

pub(crate) const RISEN: u16 = 28;

pub(crate) const AT_BOUND: u16 = 29;

pub(crate) const UNSTEADY: u16 = 30;

pub(crate) fn flag(k: u16) -> u32 {
    1 << (k % 32)
}

pub(crate) fn flag_if(k: u16, test: bool) -> u32 {
    if test { flag(k) } else { 0 }
}

pub(crate) fn add(tally: &mut [u64], k: u16, n: u32) {
    if let Some(x) = tally.get_mut(k as usize) {
        *x = x.saturating_add(u64::from(n));
    }
}

// One more of each flag.
pub(crate) fn add_flags(tally: &mut [u64], flags: u32) {
    for k in 0..BASES {
        add(tally, k, (flags >> k) % 2);
    }
}

pub(crate) fn number(tally: &[u64], k: u16) -> u64 {
    tally.get(k as usize).copied().unwrap_or(0)
}
