// The plan's own list, listed anew from the marks: byte by byte, with rule 6 itself asked of the
// list that has the byte. Nothing here knows of releases or of pieces under way.
use crate::film::Film;
use crate::{lists, marks};

// Whether a part is carried and some of its bytes are still to come.
fn is_left(f: Film, marks: u32, part: u16, list: u32) -> bool {
    marks::carries(marks, part) && !lists::is_whole(f, list, part)
}

// "Takes the carried bytes by chunk, then layer": the part of the next byte, if there is one.
fn next_part(f: Film, marks: u32, list: u32) -> Option<u16> {
    (0..marks::PARTS).find(|&part| is_left(f, marks, part, list))
}

// "Each slot takes as many next bytes as B(slot) and rule 6 allow": byte k is the next one, if
// there is one, the forecast has it and, with it, at most H chunks are held at the end of the slot.
fn take(f: Film, marks: u32, k: u16, list: u32) -> u32 {
    let Some(part) = next_part(f, marks, list) else {
        return list;
    };
    let more = lists::with(list, k, 1 + part % 16);
    if lists::has_byte(f, k) && lists::holds_few(f, more, k / 2) {
        more
    } else {
        list
    }
}

// The own list of the marks.
pub(crate) fn list(f: Film, marks: u32) -> u32 {
    (0..lists::BYTES).fold(0, |list, k| take(f, marks, k, list))
}
