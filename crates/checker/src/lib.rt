// The checker: document 01's verdict for any fetch list with its marks, and document 02's from a
// slot on, whose rule 2 allows a short sum whose rows are all before that slot. At slot 1 the
// second is the first. The tables and what they say of the rules are those of core_rules.
#![tactic(auto)]

ghost use Rattle.std.specs.Prelude.{◌≡◌, false, [], ◌∷◌, ◌≤◌, replicate, not};
ghost use Rattle.theory_basics.specs.Tests.{all_to};
ghost use Rattle.refusals.specs.Numbers.{by_number};
ghost use Rattle.job.specs.Input.{job_in, job_refusal};
ghost use Rattle.job.specs.Handed.{handed};
ghost use Rattle.fetch.specs.Slices.{list_rows, rows_in, slices_refusal};
ghost use Rattle.fetch.specs.Handed.{handed_list, handed_rows};
ghost use Rattle.fetch.specs.Verdict.{lowest};
ghost use Rattle.fetch.specs.VerdictFrom.{layer_before, verdict_from};
ghost use Rattle.checker.specs.Checked.{checked, checked_from};
ghost use Rattle.checker.specs.lemmas.Judged.{allowed_sum, allowed_layers, early, InTables, MarkLatePost};

mod sums;

use fetch::{FetchList, Rows};
use job::{JobInput, LAYERS, SIZES, SUMS, SizeTable};
use refusals::Refusal;
use sums::Sums;

// The lowest broken rule of 2 to 7, or 0.
fn lowest_broken(whole: bool, lower: bool, within: bool, timely: bool, few: bool, said: bool) -> u8
    ensures { result ≡ lowest 2 (whole ∷ lower ∷ within ∷ timely ∷ few ∷ said ∷ []) }
{
    if !whole {
        2
    } else if !lower {
        3
    } else if !within {
        4
    } else if !timely {
        5
    } else if !few {
        6
    } else if !said {
        7
    } else {
        0
    }
}

// Rule 2 of the second call for one layer: its sum is 0 or its size, or less where its rows are all
// before the slot.
fn allowed(sum: u64, size: u32, late: bool) -> bool
    ensures { result ≡ allowed_sum sum size (not late) }
{
    let z = size as u64;
    sum == 0 || (sum == z || (sum < z && !late))
}

// A flag for each layer that has a row from the slot on.
fn mark_late(from: u16, rows: &Rows, late: &mut [bool; SIZES])
    requires { InTables (handed_rows rows.now) × (late.old ≡ replicate 2000 false) }
    ensures { MarkLatePost from (rows_in (handed_rows rows.now)) late.new }
{
    for (k, &slot) in rows.slots.iter().enumerate() {
        let at = LAYERS * (rows.chunks[k] as usize - 1) + rows.layers[k] as usize;
        if from <= slot {
            late[at] = true;
        }
    }
}

// Rule 2 of the second call for the layers of a chunk.
fn allowed_chunk(sums: &Sums, late: &[bool; SIZES], i: u16) -> bool
    requires { (1 ≤ i) × (i ≤ 500) }
    ensures { result ≡ allowed_layers sums.now (early late.now) i }
{
    let from = LAYERS * (i as usize - 1);
    let mut all = true;
    for n in 0..sums.depth {
        let at = from + n;
        all &= allowed(
            sums.layers[at],
            core_sizes::size_at(sums.table, i, n),
            late[at],
        );
    }
    all
}

// Rule 2 of the second call for every layer of every chunk.
fn allowed_all(sums: &Sums, late: &[bool; SIZES], count: u16) -> bool
    requires { count ≤ 500 }
    ensures { result ≡ all_to count (allowed_layers sums.now (early late.now)) }
{
    let mut all = true;
    for i in 0..count {
        all &= allowed_chunk(sums, late, i + 1);
    }
    all
}

// Rule 2 of the second call, looked for where the first call's is broken.
fn allowed_from(sums: &Sums, count: u16, from: u16, rows: &Rows) -> bool
    requires { (count ≤ 500) × InTables (handed_rows rows.now) }
    ensures { result ≡ all_to count
        (allowed_layers sums.now (layer_before from (rows_in (handed_rows rows.now)))) }
{
    let mut late = [false; SIZES];
    mark_late(from, rows, &mut late);
    allowed_all(sums, &late, count)
}

// The verdict from a slot on of an accepted job's list, its rows whole and its marks one byte a
// chunk.
fn verdict_of(job: &JobInput, from: u16, list: &FetchList) -> u8
    requires { (job_refusal (handed job.now) ≡ 0)
        × (slices_refusal job.now.programme.chunks (handed_list list.now) ≡ 0) }
    ensures { result ≡ verdict_from (job_in (handed job.now)) from list.now.marks.now
        (list_rows (handed_list list.now)) }
{
    let p = job.programme;
    let depth = job.sizes.len();
    let last = job::last_due(p);
    let unset = p.chunks as u32;
    // All tables stand before the first call: one behind it would be cleared twice.
    let mut table = [unset; SIZES];
    let mut slotsum = [0u64; SUMS];
    let mut layersum = [0u64; SIZES];
    let mut first = [65535u16; 501];
    core_sizes::fill_sizes(job, &mut table);
    let rows = &list.rows;
    let pass = core_rules::tally(
        p,
        last,
        depth,
        rows.slots,
        rows.chunks,
        rows.layers,
        rows.bytes,
        &mut slotsum,
        &mut layersum,
        &mut first,
    );
    if pass.ranged {
        let seen = core_rules::see_all(&table, depth, &layersum, list.marks, p.chunks);
        let room = core_rules::within(job.forecast, &slotsum);
        let few = core_rules::sweep(p, last, &first);
        let sums = Sums {
            table: &table,
            depth,
            layers: &layersum,
        };
        let whole = seen.whole || allowed_from(&sums, p.chunks, from, rows);
        lowest_broken(whole, seen.lower, room, pass.timely, few, seen.said)
    } else {
        1
    }
}

// The verdict for a job, marks and rows: any number of rows in any order, of equal rows each
// counts. Refused: 5, 6, 18, 7 by the job, then 8 by the marks and rows.
// Kept: a verdict is the documents' number, 0 to 7, which files and C callers pass on.
#[tactic(auto, using(fetch::proofs::Theorems::first_slot))]
pub fn check(job: &JobInput, list: &FetchList) -> Result<u8, Refusal>
    ensures { by_number result ≡ checked (handed job.now) (handed_list list.now) }
{
    job::accept(job)?;
    fetch::accept_list(job.programme.chunks, list)?;
    Ok(verdict_of(job, 1, list))
}

// The same from a slot on: rule 2 allows a short sum whose rows are all before it. Refused: 5, 6,
// 18, 7, 8, then 21 by the slot.
pub fn check_from(job: &JobInput, from: u16, list: &FetchList) -> Result<u8, Refusal>
    ensures { by_number result ≡ checked_from (handed job.now) from (handed_list list.now) }
{
    job::accept(job)?;
    fetch::accept_list(job.programme.chunks, list)?;
    fetch::accept_slot(job.programme, from)?;
    Ok(verdict_of(job, from, list))
}
