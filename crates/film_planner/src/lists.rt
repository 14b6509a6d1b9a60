// Fetch lists: the checker's two calls, bookings, counts of marks, and two plans' counts compared.
ghost use Rattle.std.specs.Prelude.{◌≡◌};
ghost use Rattle.fetch.specs.Counts.{word_count};
ghost use Rattle.fetch.specs.Slices.{row_slices, slices_of};
ghost use Rattle.planner.specs.Answer.{compared};
ghost use Rattle.core_ffi.specs.Convention.{film};
ghost use Rattle.core_ffi.specs.Lists.{BookReturned, CountMarksReturned, ReleaseReturned, check_answer, check_from_answer};
ghost use Rattle.core_ffi.specs.Plans.{four_counts, order_number};

use fetch::{FetchList, Rows};
use job::{JobInput, Overrides, Programme};
use refusals::Refusal;
use std::cmp::Ordering;

// `checker::check` for C.
#[unsafe(no_mangle)]
pub extern "C" fn film_check(
    chunks: u16,
    span: u16,
    delay: u16,
    limit: u16,
    sizes: &[u32],
    size_chunks: &[u16],
    size_layers: &[u8],
    size_bytes: &[u32],
    forecast: &[u32],
    marks: &[u8],
    row_slots: &[u16],
    row_chunks: &[u16],
    row_layers: &[u8],
    row_bytes: &[u32],
) -> u64
    ensures { result ≡ check_answer
        (film chunks span delay limit sizes.now size_chunks.now size_layers.now
        size_bytes.now forecast.now)
        (slices_of marks.now row_slots.now row_chunks.now
        row_layers.now row_bytes.now) }
{
    let job = JobInput {
        programme: Programme {
            chunks,
            span,
            delay,
            limit,
        },
        sizes,
        overrides: Overrides {
            chunks: size_chunks,
            layers: size_layers,
            bytes: size_bytes,
        },
        forecast,
    };
    let list = FetchList {
        marks,
        rows: Rows {
            slots: row_slots,
            chunks: row_chunks,
            layers: row_layers,
            bytes: row_bytes,
        },
    };
    core_ffi::number(checker::check(&job, &list).map(usize::from))
}

// `checker::check_from` for C.
#[unsafe(no_mangle)]
pub extern "C" fn film_check_from(
    chunks: u16,
    span: u16,
    delay: u16,
    limit: u16,
    sizes: &[u32],
    size_chunks: &[u16],
    size_layers: &[u8],
    size_bytes: &[u32],
    forecast: &[u32],
    from: u16,
    marks: &[u8],
    row_slots: &[u16],
    row_chunks: &[u16],
    row_layers: &[u8],
    row_bytes: &[u32],
) -> u64
    ensures { result ≡ check_from_answer
        (film chunks span delay limit sizes.now size_chunks.now size_layers.now
        size_bytes.now forecast.now)
        from
        (slices_of marks.now row_slots.now row_chunks.now
        row_layers.now row_bytes.now) }
{
    let job = JobInput {
        programme: Programme {
            chunks,
            span,
            delay,
            limit,
        },
        sizes,
        overrides: Overrides {
            chunks: size_chunks,
            layers: size_layers,
            bytes: size_bytes,
        },
        forecast,
    };
    let list = FetchList {
        marks,
        rows: Rows {
            slots: row_slots,
            chunks: row_chunks,
            layers: row_layers,
            bytes: row_bytes,
        },
    };
    core_ffi::number(checker::check_from(&job, from, &list).map(usize::from))
}

// `booking::book` for C.
#[unsafe(no_mangle)]
pub extern "C" fn film_book(
    chunks: u16,
    span: u16,
    delay: u16,
    limit: u16,
    sizes: &[u32],
    size_chunks: &[u16],
    size_layers: &[u8],
    size_bytes: &[u32],
    forecast: &mut [u32],
    marks: &[u8],
    row_slots: &[u16],
    row_chunks: &[u16],
    row_layers: &[u8],
    row_bytes: &[u32],
) -> u64
    ensures { BookReturned
        (film chunks span delay limit sizes.now size_chunks.now size_layers.now
        size_bytes.now forecast.old)
        (slices_of marks.now row_slots.now row_chunks.now
        row_layers.now row_bytes.now)
        result forecast.new }
{
    let programme = Programme {
        chunks,
        span,
        delay,
        limit,
    };
    let overrides = Overrides {
        chunks: size_chunks,
        layers: size_layers,
        bytes: size_bytes,
    };
    let list = FetchList {
        marks,
        rows: Rows {
            slots: row_slots,
            chunks: row_chunks,
            layers: row_layers,
            bytes: row_bytes,
        },
    };
    core_ffi::done(booking::book(programme, sizes, &overrides, forecast, &list))
}

// `booking::release` for C.
#[unsafe(no_mangle)]
pub extern "C" fn film_release(
    chunks: u16,
    span: u16,
    delay: u16,
    limit: u16,
    sizes: &[u32],
    size_chunks: &[u16],
    size_layers: &[u8],
    size_bytes: &[u32],
    forecast: &mut [u32],
    row_slots: &[u16],
    row_chunks: &[u16],
    row_layers: &[u8],
    row_bytes: &[u32],
) -> u64
    ensures { ReleaseReturned
        (film chunks span delay limit sizes.now size_chunks.now size_layers.now
        size_bytes.now forecast.old)
        (row_slices row_slots.now row_chunks.now row_layers.now
        row_bytes.now)
        result forecast.new }
{
    let programme = Programme {
        chunks,
        span,
        delay,
        limit,
    };
    let overrides = Overrides {
        chunks: size_chunks,
        layers: size_layers,
        bytes: size_bytes,
    };
    let rows = Rows {
        slots: row_slots,
        chunks: row_chunks,
        layers: row_layers,
        bytes: row_bytes,
    };
    core_ffi::done(booking::release(programme, sizes, &overrides, forecast, &rows))
}

// A count of marks of any length may pass 2^32, so it stands in a lent slice.
#[tactic(auto, unfolding(core_ffi::specs::Convention::answered))]
#[unsafe(no_mangle)]
pub extern "C" fn film_count_marks(marks: &[u8], n: u8, count: &mut [u64]) -> u64
    ensures { CountMarksReturned marks.now n count.old result count.new }
{
    let Some(first) = count.first_mut() else {
        return core_ffi::number(Err(Refusal::ShortBuffer));
    };
    *first = fetch::count_marks(marks, n) as u64;
    0
}

// `fetch::count_word` for C.
#[unsafe(no_mangle)]
pub extern "C" fn film_count_word(word: u64, n: u8) -> u64
    ensures { result ≡ word_count word n }
{
    fetch::count_word(word, n) as u64
}

// `planner::compare` for C.
#[unsafe(no_mangle)]
pub extern "C" fn film_compare(counts: &[u16], others: &[u16]) -> u64
    ensures { result ≡ order_number (compared (four_counts counts.now) (four_counts others.now)) }
{
    let a = core_ffi::four_counts(counts);
    let b = core_ffi::four_counts(others);
    match planner::compare(a, b) {
        Ordering::Equal => 0,
        Ordering::Less => 1,
        Ordering::Greater => 2,
    }
}
