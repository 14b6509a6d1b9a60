// The calls that hand over a plan: its number of rows, the marks and rows, and the four counts.
ghost use Rattle.replan.specs.Answer.{replan_input};
ghost use Rattle.core_ffi.specs.Convention.{film};
ghost use Rattle.core_ffi.specs.Plans.{MostReturned, PlanReturned, ReplanReturned, SearchReturned, plan_slices};

use fetch::{LentList, Rows};
use job::{JobInput, Overrides, Programme};

// `planner::plan` for C.
#[unsafe(no_mangle)]
pub extern "C" fn film_plan(
    chunks: u16,
    span: u16,
    delay: u16,
    limit: u16,
    sizes: &[u32],
    size_chunks: &[u16],
    size_layers: &[u8],
    size_bytes: &[u32],
    forecast: &[u32],
    marks: &mut [u8],
    row_slots: &mut [u16],
    row_chunks: &mut [u16],
    row_layers: &mut [u8],
    row_bytes: &mut [u32],
    counts: &mut [u16],
) -> u64
    ensures { PlanReturned
        (film chunks span delay limit sizes.now size_chunks.now size_layers.now
        size_bytes.now forecast.now)
        (plan_slices marks.old row_slots.old row_chunks.old
        row_layers.old row_bytes.old counts.old)
        result
        (plan_slices marks.new row_slots.new row_chunks.new
        row_layers.new row_bytes.new counts.new) }
{
    let job = JobInput {
        programme: Programme {
            chunks,
            span,
            delay,
            limit,
        },
        sizes,
        overrides: Overrides {
            chunks: size_chunks,
            layers: size_layers,
            bytes: size_bytes,
        },
        forecast,
    };
    let mut out = LentList {
        marks,
        slots: row_slots,
        chunks: row_chunks,
        layers: row_layers,
        bytes: row_bytes,
    };
    core_ffi::number(core_ffi::plan_with_counts(&job, &mut out, counts))
}

// `replan::replan` for C.
#[unsafe(no_mangle)]
pub extern "C" fn film_replan(
    chunks: u16,
    span: u16,
    delay: u16,
    limit: u16,
    sizes: &[u32],
    size_chunks: &[u16],
    size_layers: &[u8],
    size_bytes: &[u32],
    forecast: &[u32],
    from: u16,
    fetched_slots: &[u16],
    fetched_chunks: &[u16],
    fetched_layers: &[u8],
    fetched_bytes: &[u32],
    onward: &[u32],
    marks: &mut [u8],
    row_slots: &mut [u16],
    row_chunks: &mut [u16],
    row_layers: &mut [u8],
    row_bytes: &mut [u32],
    counts: &mut [u16],
) -> u64
    ensures { ReplanReturned
        (film chunks span delay limit sizes.now size_chunks.now size_layers.now
        size_bytes.now forecast.now)
        (replan_input from fetched_slots.now fetched_chunks.now
        fetched_layers.now fetched_bytes.now onward.now)
        (plan_slices marks.old row_slots.old row_chunks.old
        row_layers.old row_bytes.old counts.old)
        result
        (plan_slices marks.new row_slots.new row_chunks.new
        row_layers.new row_bytes.new counts.new) }
{
    let job = JobInput {
        programme: Programme {
            chunks,
            span,
            delay,
            limit,
        },
        sizes,
        overrides: Overrides {
            chunks: size_chunks,
            layers: size_layers,
            bytes: size_bytes,
        },
        forecast,
    };
    let fetched = Rows {
        slots: fetched_slots,
        chunks: fetched_chunks,
        layers: fetched_layers,
        bytes: fetched_bytes,
    };
    let mut out = LentList {
        marks,
        slots: row_slots,
        chunks: row_chunks,
        layers: row_layers,
        bytes: row_bytes,
    };
    core_ffi::number(core_ffi::replan_with_counts(&job, from, &fetched, onward, &mut out, counts))
}

// `search::search` for C.
#[unsafe(no_mangle)]
pub extern "C" fn film_search(
    chunks: u16,
    span: u16,
    delay: u16,
    limit: u16,
    sizes: &[u32],
    size_chunks: &[u16],
    size_layers: &[u8],
    size_bytes: &[u32],
    forecast: &[u32],
    budget: u32,
    marks: &mut [u8],
    row_slots: &mut [u16],
    row_chunks: &mut [u16],
    row_layers: &mut [u8],
    row_bytes: &mut [u32],
    counts: &mut [u16],
    walk: &mut [u32],
) -> u64
    ensures { SearchReturned
        (film chunks span delay limit sizes.now size_chunks.now size_layers.now
        size_bytes.now forecast.now)
        budget
        (plan_slices marks.old row_slots.old row_chunks.old
        row_layers.old row_bytes.old counts.old)
        walk.old
        result
        (plan_slices marks.new row_slots.new row_chunks.new
        row_layers.new row_bytes.new counts.new)
        walk.new }
{
    let job = JobInput {
        programme: Programme {
            chunks,
            span,
            delay,
            limit,
        },
        sizes,
        overrides: Overrides {
            chunks: size_chunks,
            layers: size_layers,
            bytes: size_bytes,
        },
        forecast,
    };
    let mut out = LentList {
        marks,
        slots: row_slots,
        chunks: row_chunks,
        layers: row_layers,
        bytes: row_bytes,
    };
    core_ffi::number(core_ffi::search_with_walk(&job, budget, &mut out, counts, walk))
}

// `most::most_pictures` for C.
#[unsafe(no_mangle)]
pub extern "C" fn film_most(
    chunks: u16,
    span: u16,
    delay: u16,
    limit: u16,
    sizes: &[u32],
    size_chunks: &[u16],
    size_layers: &[u8],
    size_bytes: &[u32],
    forecast: &[u32],
    passes: u32,
    work: &mut [u64],
    marks: &mut [u8],
    row_slots: &mut [u16],
    row_chunks: &mut [u16],
    row_layers: &mut [u8],
    row_bytes: &mut [u32],
    counts: &mut [u16],
    bounds: &mut [u16],
) -> u64
    ensures { MostReturned
        (film chunks span delay limit sizes.now size_chunks.now size_layers.now
        size_bytes.now forecast.now)
        (plan_slices marks.old row_slots.old row_chunks.old
        row_layers.old row_bytes.old counts.old)
        bounds.old
        work.old
        result
        (plan_slices marks.new row_slots.new row_chunks.new
        row_layers.new row_bytes.new counts.new)
        bounds.new
        work.new }
{
    let job = JobInput {
        programme: Programme {
            chunks,
            span,
            delay,
            limit,
        },
        sizes,
        overrides: Overrides {
            chunks: size_chunks,
            layers: size_layers,
            bytes: size_bytes,
        },
        forecast,
    };
    let mut out = LentList {
        marks,
        slots: row_slots,
        chunks: row_chunks,
        layers: row_layers,
        bytes: row_bytes,
    };
    core_ffi::number(core_ffi::most_with_bounds(&job, passes, work, &mut out, counts, bounds))
}
