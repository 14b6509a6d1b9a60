// Demand 3's bounds, asked of one list: the marks that it gives against the plan's. A bound that
// applies to the list is a flag of the tally.
use crate::film::Film;
use crate::{film, lists, marks, tally};

// A bound: the list carries layer n for at most as many chunks as the plan.
fn at_most(plan: u32, given: u32, n: u16, bound: u16) -> u32 {
    if marks::count(given, n) <= marks::count(plan, n) {
        tally::flag(bound)
    } else {
        tally::flag(tally::BROKEN)
    }
}

// "For every layer n, every passing list in playing order that carries all the plan's own layers
// below n carries layer n for at most as many chunks as the plan."
fn of_layer(f: Film, ordered: bool, plan: u32, given: u32, n: u16) -> u32 {
    if ordered && 0 < film::size(f, n) && marks::covers_below(given, plan, n) {
        at_most(plan, given, n, tally::BY_LAYER + n % 4)
    } else {
        0
    }
}

// "Where the buffer limit holds the whole programme, take any passing list whose counts are not the
// plan's: at the first layer, from the base up, where they differ, the plan's count is the higher."
fn of_whole(f: Film, plan: u32, given: u32) -> u32 {
    if film::held_most(f) < f.chunks {
        return 0;
    }
    for n in 0..4 {
        if marks::count(plan, n) != marks::count(given, n) {
            return at_most(plan, given, n, tally::WHOLE);
        }
    }
    0
}

// Uneven film. "No passing list, in any order, then carries more bases" where H is at least C; of
// the others, the lists that carry more.
fn of_uneven(f: Film, plan: u32, given: u32) -> u32 {
    if f.chunks <= film::held_most(f) {
        at_most(plan, given, 0, tally::MOST)
    } else {
        tally::flag_if(
            tally::BEATEN,
            marks::count(plan, 0) < marks::count(given, 0),
        )
    }
}

// The first is "Every fetch list that passes, in whatever order it fetches, carries the base layer
// of at most as many chunks as the plan".
pub(crate) fn weigh(f: Film, plan: u32, given: u32, list: u32) -> u32 {
    if !film::is_equal(f) {
        return tally::flag(tally::LISTS) | of_uneven(f, plan, given);
    }
    let ordered = lists::in_order(given, list);
    tally::flag(tally::LISTS)
        | at_most(plan, given, 0, tally::ANY_ORDER)
        | (0..4).fold(0, |flags, n| flags | of_layer(f, ordered, plan, given, n))
        | of_whole(f, plan, given)
}
