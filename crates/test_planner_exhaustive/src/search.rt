// Every fetch list of a job, and another planner that decides each layer by looking at all of them.
// Nothing here knows of need, room or release: a list is judged whole, at its end.
use crate::film::Film;
use crate::{bits, bounds, film, lists, marks, moore_hodgson, tally};

// What is asked of each list: where every list is asked for, to be weighed against the plan's
// marks; else to carry the marked layers and no others.
#[derive(Clone, Copy)]
struct Asked {
    film: Film,
    every: bool,
    marks: u32,
}

// Whether byte k may be of a part: the forecast has it (rule 4), the chunk is due in its slot or
// later (rule 5), the layer lacks bytes and is asked for.
fn may(asked: Asked, k: u16, part: u16, list: u32) -> bool {
    let f = asked.film;
    let i = part / 4;
    i < f.chunks
        && ((k / 2) as usize) < film::due(f, i)
        && lists::has_byte(f, k)
        && !lists::is_whole(f, list, part)
        && (asked.every || marks::carries(asked.marks, part))
}

// Byte k has values below this: of the two bytes in a slot the one set later, which has the even
// number, is of no later part, so that each list comes once.
fn above(list: u32, k: u16) -> u16 {
    if k % 2 == 1 {
        1 + marks::PARTS
    } else {
        1 + (bits::digit(list >> 4, k) as u16)
    }
}

// Gives each of the first bytes of the list each value that it may have, 1 + a part or 0, the
// highest first, and judges each list once it is whole. True as soon as one is accepted.
fn search(asked: Asked, bytes: u16, list: u32, tally: &mut [u64]) -> bool {
    if bytes == 0 {
        return judge(asked, list, tally);
    }
    let k = bytes - 1;
    for v in (0..above(list, k)).rev() {
        let may_be = v == 0 || may(asked, k, v - 1, list);
        if may_be && search(asked, k, lists::with(list, k, v), tally) {
            return true;
        }
    }
    false
}

// A whole list that passes. Where every list is asked for, it is weighed against the plan's marks
// and not accepted; else it is accepted if it carries the marked layers and no others, and is in
// playing order.
fn judge(asked: Asked, list: u32, tally: &mut [u64]) -> bool {
    let f = asked.film;
    let given = lists::marks_given(f, list);
    if !lists::passes(f, list, given) {
        return false;
    }
    if asked.every {
        tally::add_flags(tally, bounds::weigh(f, asked.marks, given, list));
        return false;
    }
    given == asked.marks && lists::in_order(given, list)
}

// Weighs every list against the plan's marks.
pub(crate) fn weigh_all(f: Film, plan: u32, tally: &mut [u64]) {
    let asked = Asked {
        film: f,
        every: true,
        marks: plan,
    };
    search(asked, lists::BYTES, 0, tally);
}

// Whether some passing list in playing order carries the marked layers and no others.
fn some_list(f: Film, marks: u32) -> bool {
    let asked = Asked {
        film: f,
        every: false,
        marks,
    };
    search(asked, lists::BYTES, 0, &mut [])
}

// "A chunk that lacks the layer below is passed over. Otherwise the layer is carried exactly if
// some list in playing order passes that carries the layers settled as carried so far, this one and
// no others."
fn settle(f: Film, marks: u32, part: u16) -> u32 {
    let tried = marks::with(marks, part);
    if marks::keep_rule_3(tried) && some_list(f, tried) {
        tried
    } else {
        marks
    }
}

// "Layers are settled from 0 upward, and within a layer chunks from C down to 1": from a turn on,
// in turn k layer k / 3 of chunk 2 - k % 3. A layer or a chunk that the job does not have is not
// carried by any list.
fn settle_from(f: Film, from: u16, settled: u32) -> u32 {
    (from..marks::PARTS).fold(settled, |marks, k| {
        settle(f, marks, 4 * (2 - k % 3) + k / 3)
    })
}

// The bases of request 9 where it settles them, else document 01's; the upper layers in its way.
pub(crate) fn plan(f: Film) -> u32 {
    if moore_hodgson::settles(f) {
        settle_from(f, 3, moore_hodgson::bases(f))
    } else {
        settle_from(f, 0, 0)
    }
}
