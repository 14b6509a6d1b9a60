// The calls that hand over a plan, with the four counts, and what else a plan comes with, beside
// the library's own slices.
ghost use Rattle.std.specs.Prelude.{◌≡◌, Err};
ghost use Rattle.theory_basics.specs.Refusals.{◌or_else◌};
ghost use Rattle.refusals.specs.Numbers.{by_number};
ghost use Rattle.job.specs.Handed.{handed};
ghost use Rattle.fetch.specs.Handed.{SameSlices};
ghost use Rattle.replan.specs.Answer.{input_refusal};
ghost use Rattle.replan.specs.Handed.{handed_on};
ghost use Rattle.core_ffi.specs.Plans.{MostReturned, PlanReturned, ReplanReturned, SearchReturned};
ghost use Rattle.core_ffi.specs.lemmas.Numbers.{answer_number};
ghost use Rattle.core_ffi.specs.lemmas.Planning.{plan_room};

use crate::refuse_short;
use fetch::{LentList, Rows};
use job::JobInput;
use refusals::Refusal;

// The number of rows of the plan.
pub fn plan_with_counts(
    job: &JobInput,
    out: &mut LentList,
    counts: &mut [u16],
) -> Result<usize, Refusal>
    ensures same { SameSlices out.old out.new }
    ensures returned { PlanReturned (handed job.now)
        (plan_room out.old counts.old)
        (answer_number (by_number result))
        (plan_room out.new counts.new) }
{
    let Some(four) = counts.first_chunk_mut::<4>() else {
        return refuse_short(job);
    };
    let made = planner::plan(job, out)?;
    let own = made.counts;
    *four = own;
    Ok(made.rows)
}

// Where the counts have no room, the plan is made into none: it is refused by all that comes before
// 11, or by 11.
fn replan_short(job: &JobInput, from: u16, fetched: &Rows, onward: &[u32]) -> Result<usize, Refusal>
    ensures { by_number result ≡
        Err (input_refusal (handed job.now) (handed_on from fetched.now onward.now) or_else 11) }
{
    let mut none = LentList {
        marks: &mut [],
        slots: &mut [],
        chunks: &mut [],
        layers: &mut [],
        bytes: &mut [],
    };
    replan::replan(job, from, fetched, onward, &mut none)?;
    Err(Refusal::ShortBuffer)
}

// The number of rows of the plan made afresh, from the slot of replanning on.
pub fn replan_with_counts(
    job: &JobInput,
    from: u16,
    fetched: &Rows,
    onward: &[u32],
    out: &mut LentList,
    counts: &mut [u16],
) -> Result<usize, Refusal>
    ensures same { SameSlices out.old out.new }
    ensures returned { ReplanReturned (handed job.now) (handed_on from fetched.now onward.now)
        (plan_room out.old counts.old)
        (answer_number (by_number result))
        (plan_room out.new counts.new) }
{
    let Some(four) = counts.first_chunk_mut::<4>() else {
        return replan_short(job, from, fetched, onward);
    };
    let made = replan::replan(job, from, fetched, onward, out)?;
    let own = made.counts;
    *four = own;
    Ok(made.rows)
}

// The number of rows of the plan over the set found; of its walk the steps, 1 if it ended, else 0,
// and the shortfall.
pub fn search_with_walk(
    job: &JobInput,
    budget: u32,
    out: &mut LentList,
    counts: &mut [u16],
    walk: &mut [u32],
) -> Result<usize, Refusal>
    ensures same { SameSlices out.old out.new }
    ensures returned { SearchReturned (handed job.now) budget
        (plan_room out.old counts.old) walk.old
        (answer_number (by_number result))
        (plan_room out.new counts.new) walk.new }
{
    let Some(four) = counts.first_chunk_mut::<4>() else {
        return refuse_short(job);
    };
    let Some(three) = walk.first_chunk_mut::<3>() else {
        return refuse_short(job);
    };
    let found = search::search(job, budget, out)?;
    let own = found.counts;
    *four = own;
    *three = [found.steps, found.ended as u32, found.shortfall as u32];
    Ok(found.rows)
}

// The number of rows of the plan over the set found; the bounds, and 1 if the first is met, else 0.
pub fn most_with_bounds(
    job: &JobInput,
    passes: u32,
    work: &mut [u64],
    out: &mut LentList,
    counts: &mut [u16],
    bounds: &mut [u16],
) -> Result<usize, Refusal>
    ensures same { SameSlices out.old out.new }
    ensures returned { MostReturned (handed job.now)
        (plan_room out.old counts.old) bounds.old work.old
        (answer_number (by_number result))
        (plan_room out.new counts.new) bounds.new work.new }
{
    let Some(four) = counts.first_chunk_mut::<4>() else {
        return refuse_short(job);
    };
    let Some(three) = bounds.first_chunk_mut::<3>() else {
        return refuse_short(job);
    };
    let found = most::most_pictures(job, passes, work, out)?;
    let own = found.counts;
    *four = own;
    *three = [found.bound, found.bound_any, found.exact as u16];
    Ok(found.rows)
}
