// The bytes fetched before p as one word: cells 2t and 2t + 1 of three bits stand for slot t, and
// each is 0 or 1 + the part that the byte is of. Where a slot has one byte it is the second cell's,
// of two the first is of no later part, so that each list comes once.
ghost use Rattle.std.specs.Prelude.{◌≤◌};

use crate::film;
use crate::film::Film;
use core_prefix::prefix;
use fetch::Rows;

pub(crate) const CELLS: u16 = 6;

pub(crate) fn cell(list: u32, k: u16) -> u16
    ensures { result ≤ 7 }
{
    if k < CELLS {
        ((list >> (3 * k)) % 8) as u16
    } else {
        0
    }
}

// The first list that has a byte in slot p - 1, or in no slot before it.
pub(crate) fn bound(p: u16) -> u32 {
    match p {
        0 => 0,
        1 => 1,
        2 => 64,
        3 => 4096,
        _ => 262144,
    }
}

// How many cells have a value.
pub(crate) fn count(list: u32, v: u16) -> u32
    ensures { result ≤ 6 }
{
    u32::from(cell(list, 0) == v)
        + u32::from(cell(list, 1) == v)
        + u32::from(cell(list, 2) == v)
        + u32::from(cell(list, 3) == v)
        + u32::from(cell(list, 4) == v)
        + u32::from(cell(list, 5) == v)
}

// Whether a byte of the part may stand in cell k: the layer has not more than its bytes, and the
// byte is not late.
fn may(f: Film, list: u32, k: u16, part: u16) -> bool {
    count(list, 1 + part % 8) <= film::size(f, part) && k / 2 < film::due(f, part / 2)
}

fn cell_may(f: Film, list: u32, k: u16) -> bool {
    let v = cell(list, k);
    let ordered = k % 2 == 0 || cell(list, k - 1) <= v;
    ordered && (v == 0 || may(f, list, k, v - 1))
}

pub(crate) fn is_list(f: Film, list: u32) -> bool {
    (0..CELLS).all(|k| cell_may(f, list, k))
}

// Cell k from the first or from the last.
fn turned(k: u16, back: bool) -> u16 {
    if back { (CELLS - 1) - k % CELLS } else { k }
}

// Room for marks and 18 rows.
#[derive(Clone, Copy)]
pub(crate) struct Room {
    pub marks: [u8; 3],
    pub slots: [u16; 18],
    pub chunks: [u16; 18],
    pub layers: [u8; 18],
    pub bytes: [u32; 18],
}

pub(crate) const EMPTY: Room = Room {
    marks: [0; 3],
    slots: [0; 18],
    chunks: [0; 18],
    layers: [0; 18],
    bytes: [0; 18],
};

pub(crate) const NINES: Room = Room {
    marks: [9; 3],
    slots: [9; 18],
    chunks: [9; 18],
    layers: [9; 18],
    bytes: [9; 18],
};

// The first n rows.
pub(crate) fn first(room: &Room, n: usize) -> Rows<'_> {
    Rows {
        slots: prefix(&room.slots, n),
        chunks: prefix(&room.chunks, n),
        layers: prefix(&room.layers, n),
        bytes: prefix(&room.bytes, n),
    }
}

// A row for each byte, in either order, from a place on; the place after them.
pub(crate) fn hand(list: u32, back: bool, at: usize, room: &mut Room) -> usize {
    let mut n = at;
    for k in 0..CELLS {
        let c = turned(k, back);
        let v = cell(list, c);
        if 0 < v && n < 18 {
            room.slots[n] = 1 + c / 2;
            room.chunks[n] = (v + 1) / 2;
            room.layers[n] = ((v + 1) % 2) as u8;
            room.bytes[n] = 1;
            n += 1;
        }
    }
    n
}
