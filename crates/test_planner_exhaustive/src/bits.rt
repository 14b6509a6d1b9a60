// Eight numbers of four bits in one word.
ghost use Rattle.std.specs.Prelude.{◌≤◌};

// The k-th number.
pub(crate) fn digit(word: u32, k: u16) -> u32
    ensures { result ≤ 15 }
{
    if k < 8 { (word >> (4 * k)) % 16 } else { 0 }
}

// How many bits are set; the remainder tells the prover that there are at most 32.
pub(crate) fn ones(word: u32) -> u32
    ensures { result ≤ 32 }
{
    word.count_ones() % 33
}

// The lowest bits of the numbers that are 0.
pub(crate) fn zeros(word: u32) -> u32 {
    0x11111111 & !(word | (word >> 1) | (word >> 2) | (word >> 3))
}

// How many numbers are not 0.
pub(crate) fn nonzero(word: u32) -> u32 {
    ones(0x11111111 & !zeros(word))
}

// How many numbers are v.
pub(crate) fn count(word: u32, v: u32) -> u32 {
    ones(zeros(word ^ (v % 16 * 0x11111111)))
}
