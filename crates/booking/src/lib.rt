// Two films on one link: document 02, request 11. Booking takes a passing list's bytes off the lent
// forecast, releasing adds them back, both in the forecast's own storage and row by row.
#![tactic(auto)]

ghost use Rattle.std.specs.Prelude.{◌≡◌, ◌+◌, ◌≤◌, leb, length};
ghost use Rattle.theory_basics.specs.Tests.{All};
ghost use Rattle.refusals.specs.Numbers.{refusal_number};
ghost use Rattle.job.specs.Job.{Within};
ghost use Rattle.fetch.specs.Handed.{handed_list, handed_rows};
ghost use Rattle.booking.specs.Booking.{taken_off};
ghost use Rattle.booking.specs.Answer.{BookPromise, ReleasePromise, lent_job};
ghost use Rattle.booking.specs.lemmas.Passes.{Added, Covered, bare};

use fetch::{FetchList, Rows};
use job::{JobInput, MOST_BYTES, Overrides, Programme};
use refusals::{Refusal, refuse_unless};

// So many rows off the forecast. None of its slots falls below 0: of a passing list by rule 4, else
// because they were just added.
fn take_off(forecast: &mut [u32], rows: &Rows, count: usize)
    requires { (count ≤ length rows.now.slots.now)
        × (count ≤ length rows.now.bytes.now)
        × Covered forecast.old (bare rows.now.slots.now rows.now.bytes.now count) }
    ensures { forecast.new ≡ taken_off forecast.old
        (bare rows.now.slots.now rows.now.bytes.now count) }
{
    for i in 0..count {
        forecast[rows.slots[i] as usize - 1] -= rows.bytes[i];
    }
}

// Whether a slot has room for so many bytes more.
fn has_room(held: u32, more: u32) -> bool
    ensures { result ≡ leb (held + more) 16777216 }
{
    held as u64 + more as u64 <= MOST_BYTES as u64
}

// Row by row back to the forecast, up to the first row whose slot isn't there or has no room; how
// many rows that are.
fn add_back(forecast: &mut [u32], rows: &Rows) -> usize
    requires { (length rows.now.slots.now ≡ length rows.now.bytes.now)
        × All (Within 0 16777216) forecast.old }
    ensures { Added forecast.old rows.now.slots.now rows.now.bytes.now
        (length rows.now.slots.now)
        result forecast.new }
{
    for (i, &slot) in rows.slots.iter().enumerate() {
        let slot = slot as usize;
        if slot < 1 || forecast.len() < slot {
            return i;
        }
        let at = slot - 1;
        let held = forecast[at];
        let b = rows.bytes[i];
        if !has_room(held, b) {
            return i;
        }
        forecast[at] = held + b;
    }
    rows.slots.len()
}

// Takes a list that passes off its job's forecast. Refused: 5, 6, 18, 7, 8, then 19 for a verdict
// other than 0, by the marks handed.
// Kept: a forecast lent to be changed stands in no JobInput, which shares it.
#[tactic(auto, unfolding(crate::specs::Booking::pass_refusal))]
pub fn book(
    p: Programme,
    sizes: &[u32],
    overrides: &Overrides,
    forecast: &mut [u32],
    list: &FetchList,
) -> Result<(), Refusal>
    ensures { BookPromise (lent_job p sizes.now overrides.now forecast.old) (handed_list list.now)
        (refusal_number result) forecast.new }
{
    let job = JobInput {
        programme: p,
        sizes,
        overrides: *overrides,
        forecast,
    };
    let verdict = checker::check(&job, list)?;
    refuse_unless(verdict == 0, Refusal::NotPassing)?;
    take_off(forecast, &list.rows, list.rows.slots.len());
    Ok(())
}

// Adds a list's bytes back to its job's forecast. Refused: 5, 6, 18, 7, 8 for a row not handed
// whole, then 20. On 20 the rows added before the one that can't be are taken off again.
pub fn release(
    p: Programme,
    sizes: &[u32],
    overrides: &Overrides,
    forecast: &mut [u32],
    rows: &Rows,
) -> Result<(), Refusal>
    ensures { ReleasePromise (lent_job p sizes.now overrides.now forecast.old)
        (handed_rows rows.now)
        (refusal_number result) forecast.new }
{
    let job = JobInput {
        programme: p,
        sizes,
        overrides: *overrides,
        forecast,
    };
    let unmarked = FetchList {
        marks: &[],
        rows: *rows,
    };
    job::accept(&job)?;
    fetch::accept_list(0, &unmarked)?;
    let added = add_back(forecast, rows);
    if added < rows.slots.len() {
        take_off(forecast, rows, added);
        Err(Refusal::Release)
    } else {
        Ok(())
    }
}
