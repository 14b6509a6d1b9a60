// What the tests count.
// Kept: the numbers are places of one array, which is printed by ranges of them.
pub(crate) const FILMS: u16 = 0;

pub(crate) const LISTS: u16 = 1;

pub(crate) const REFUSED: u16 = 2;

pub(crate) const PLANS: u16 = 3;

pub(crate) const NONE_HELD: u16 = 4;

pub(crate) const DUE_BEFORE: u16 = 5;

pub(crate) const GIVEN_UP: u16 = 6;

pub(crate) const ENDED: u16 = 7;

pub(crate) const BASES: u16 = 8;

pub(crate) const UPPERS: u16 = 9;

pub(crate) const ROWS: u16 = 10;

pub(crate) const PASSED: u16 = 11;

pub(crate) const TURNED: u16 = 12;

pub(crate) const SUM: u16 = 13;

pub(crate) const STANDING: u16 = 14;

pub(crate) const GOES_ON: u16 = 15;

pub(crate) fn add(tally: &mut [u64], k: u16, n: u32) {
    if let Some(x) = tally.get_mut(k as usize) {
        *x = x.saturating_add(u64::from(n));
    }
}

// One more of k, where the test holds.
pub(crate) fn add_if(tally: &mut [u64], k: u16, test: bool) {
    add(tally, k, u32::from(test));
}

pub(crate) fn set(tally: &mut [u64], k: u16, n: u64) {
    if let Some(x) = tally.get_mut(k as usize) {
        *x = n;
    }
}

pub(crate) fn number(tally: &[u64], k: u16) -> u64 {
    tally.get(k as usize).copied().unwrap_or(0)
}
