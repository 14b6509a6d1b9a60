// A fetch list as its bytes, at most two a slot, in one word: its numbers 2t and 2t + 1 of four
// bits stand for slot t, and each is 0 or 1 + the part that the byte is of. Lists that only split
// or repeat rows otherwise are one: rules 1 to 6 and playing order speak of sums and of first
// slots.
use crate::film::Film;
use crate::{bits, film, marks};

// How many bytes a list may have.
pub(crate) const BYTES: u16 = 8;

// Rule 4: whether the forecast has byte k. Where it has one byte in the slot, that is the second.
pub(crate) fn has_byte(f: Film, k: u16) -> bool {
    2 <= bits::digit(f.forecast, k / 2) + (k % 2) as u32
}

// The list with byte k of the part v - 1, or of none if v is 0.
pub(crate) fn with(list: u32, k: u16, v: u16) -> u32 {
    if k < BYTES {
        list | (((v % 16) as u32) << (4 * k))
    } else {
        list
    }
}

// How many bytes of a part are in all slots; in slot t.
pub(crate) fn in_all(list: u32, part: u16) -> u32 {
    bits::count(list, 1 + (part % 15) as u32)
}

pub(crate) fn in_slot(list: u32, t: u16, part: u16) -> u32 {
    if t < 4 {
        in_all((list >> (8 * t)) % 256, part)
    } else {
        0
    }
}

// Whether a part has all its bytes.
pub(crate) fn is_whole(f: Film, list: u32, part: u16) -> bool {
    film::size(f, part) <= in_all(list, part)
}

// How many rows the list has, one for each slot, chunk and layer: byte 2t counts for none if byte
// 2t + 1 is of the same part.
pub(crate) fn rows(list: u32) -> u32 {
    let same = bits::zeros(list ^ (list >> 4)) & 0x01010101;
    bits::ones(0x11111111 & !bits::zeros(list) & !same)
}

// The first slot in which chunk i has a row; 4 if it has none.
fn begun(list: u32, i: u16) -> u16 {
    for k in 0..BYTES {
        if (bits::digit(list, k) + 3) / 4 == 1 + (i % 3) as u32 {
            return k / 2;
        }
    }
    4
}

// Whether chunk i is held at the end of slot t: begun by then, and due later.
fn is_held(f: Film, list: u32, t: u16, i: u16) -> bool {
    begun(list, i) <= t && (t as usize) + 1 < film::due(f, i)
}

// Rule 6 at the end of slot t: at most H chunks are held.
pub(crate) fn holds_few(f: Film, list: u32, t: u16) -> bool {
    let held = (0..3).filter(|&i| is_held(f, list, t, i)).count();
    held <= film::held_most(f) as usize
}

// Whether chunk k is not begun in an earlier slot than chunk i, if that is carried.
fn follows(marks: u32, list: u32, i: u16, k: u16) -> bool {
    !marks::carries(marks, 4 * (i % 3)) || begun(list, i) <= begun(list, k)
}

// Playing order: no chunk is begun in an earlier slot than a carried chunk that plays before it.
pub(crate) fn in_order(marks: u32, list: u32) -> bool {
    follows(marks, list, 0, 1) && follows(marks, list, 0, 2) && follows(marks, list, 1, 2)
}

// A bit above all marks, for rule 2: some part has some of its bytes and not all.
const BROKEN: u32 = 0x1000;

// The marks with a part, if it has all its bytes.
fn with_part(f: Film, list: u32, part: u16, marks: u32) -> u32 {
    let bytes = in_all(list, part);
    if bytes == 0 {
        marks
    } else if bytes == film::size(f, part) {
        marks::with(marks, part)
    } else {
        BROKEN
    }
}

// The marks that the rows give.
pub(crate) fn marks_given(f: Film, list: u32) -> u32 {
    (0..marks::PARTS).fold(0, |marks, part| with_part(f, list, part, marks))
}

// Whether a list passes that keeps rules 4 and 5 and gives these marks.
pub(crate) fn passes(f: Film, list: u32, given: u32) -> bool {
    given < BROKEN && marks::keep_rule_3(given) && (0..4).all(|t| holds_few(f, list, t))
}
