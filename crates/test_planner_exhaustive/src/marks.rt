// Marks in one word: bit 4i + n is set exactly if layer n of chunk i is carried. Layer n of chunk i
// is called part 4i + n.
ghost use Rattle.std.specs.Prelude.{◌≤◌};

use crate::bits;

pub(crate) const PARTS: u16 = 12;

pub(crate) fn carries(marks: u32, part: u16) -> bool {
    part < PARTS && (marks >> part) % 2 == 1
}

// The marks with a part carried too.
pub(crate) fn with(marks: u32, part: u16) -> u32 {
    if part < PARTS {
        marks | (1 << part)
    } else {
        marks
    }
}

// How many chunks carry layer n.
pub(crate) fn count(marks: u32, n: u16) -> u32
    ensures { result ≤ 32 }
{
    if n < 4 {
        bits::ones(marks & (0x111 << n))
    } else {
        0
    }
}

// Whether, for every chunk, a carries each layer below n that b carries.
pub(crate) fn covers_below(a: u32, b: u32, n: u16) -> bool {
    let below = match n {
        0 => 0,
        1 => 0x111,
        2 => 0x333,
        3 => 0x777,
        _ => 0xfff,
    };
    b & below & !a == 0
}

// Rule 3: a carried layer has the layer below carried.
pub(crate) fn keep_rule_3(marks: u32) -> bool {
    marks & 0xeee & !(marks << 1) == 0
}
