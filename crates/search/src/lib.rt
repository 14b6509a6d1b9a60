// Request 13, "Good enough before the curtain": the best set of bases met within a budget of steps,
// and the plan over it. The search itself is core_search's; this crate adds the shortfall, the
// layers above the bases, and the hand-over.
#![tactic(auto)]

ghost use Rattle.std.specs.Prelude.{◌≡◌, cond, ◌-◌, ◌≤◌, length};
ghost use Rattle.job.specs.Input.{job_in, job_refusal};
ghost use Rattle.job.specs.Handed.{handed};
ghost use Rattle.core_sizes.specs.Table.{table_at};
ghost use Rattle.fetch.specs.Handed.{SameSlices, lent_list};
ghost use Rattle.theory_plan.specs.lemmas.Parts.{at};
ghost use Rattle.core_moore_hodgson.specs.lemmas.Tables.{moore_hodgson_in};
ghost use Rattle.search.specs.Answer.{SearchOutput, SearchPromise};
ghost use Rattle.search.specs.lemmas.Deciding.{DecideFoundPre, DecidesFound, ShortfallPre};

use fetch::LentList;
use job::{CHUNKS, JobInput, Programme, SIZES, SUMS, SizeTable, SlotSums};
use refusals::Refusal;

// How many rows the plan has, how many chunks carry each layer, the steps taken, whether the walk
// ended, and by how many bases at most another list in playing order is better.
#[derive(Clone, Copy)]
pub struct Searched {
    pub rows: usize,
    pub counts: [u16; 4],
    pub steps: u32,
    pub ended: bool,
    pub shortfall: u16,
}

// Where the set found begins in the tables, and what is said of it.
#[derive(Clone, Copy)]
struct Decision {
    pub first: usize,
    pub steps: u32,
    pub ended: bool,
    pub shortfall: u16,
}

// The count of request 9 without the limit, less the count found; 0 if the walk ended.
fn shortfall(p: Programme, table: &SizeTable, after: &SlotSums, first: usize, ended: bool) -> u16
    requires { ShortfallPre p (table_at table.now) after.now first }
    ensures { result ≡ cond ended 0
        (length (moore_hodgson_in p (table_at table.now) (at after.now)) - (500 - first)) }
{
    if ended {
        return 0;
    }
    let mut ids = [0u16; CHUNKS];
    let mut dues = [0u16; CHUNKS];
    let mut bytes = [0u32; CHUNKS];
    let most = core_moore_hodgson::keep_most(p, table, after, &mut ids, &mut dues, &mut bytes);
    // Both sets stand at the end of 500 places.
    first.saturating_sub(most) as u16
}

// The set found, with its releases and marks: the layers above its bases follow document 01's way.
fn decide(
    job: &JobInput,
    table: &SizeTable,
    budget: u32,
    ids: &mut [u16; CHUNKS],
    ready: &mut [u16; CHUNKS],
    mark: &mut [u8; CHUNKS],
) -> Decision
    requires { DecideFoundPre (job_in (handed job.now)) (table_at table.now)
        ids.old ready.old mark.old }
    ensures { DecidesFound (job_in (handed job.now)) budget result ids.new ready.new mark.new }
{
    let p = job.programme;
    let mut after = [0u64; SUMS];
    let mut room = [0u64; CHUNKS];
    let mut dues = [0u16; CHUNKS];
    let mut bytes = [0u32; CHUNKS];
    core_decide::sum_after(job.forecast, 1, &mut after);
    let met = core_search::best_within(p, table, &after, budget, ids, &mut dues, &mut bytes);
    let first = met.first;
    let ended = met.ended;
    let short = shortfall(p, table, &after, first, ended);
    core_decide::settle_kept(
        p,
        job.sizes.len(),
        table,
        &after,
        first,
        ids,
        &dues,
        &mut bytes,
        &mut room,
        ready,
        mark,
    );
    Decision {
        first,
        steps: met.steps,
        ended,
        shortfall: short,
    }
}

// The set found of an accepted job and the plan over it, handed over.
fn write_found(job: &JobInput, budget: u32, out: &mut LentList) -> Result<Searched, Refusal>
    requires { (job_refusal (handed job.now) ≡ 0)
        × (job.now.programme.chunks ≤ length out.old.marks.now) }
    ensures same { SameSlices out.old out.new }
    ensures output { SearchOutput (handed job.now) budget (lent_list out.old)
        result (lent_list out.new) }
{
    let mut table = [0u32; SIZES];
    core_sizes::fill_sizes(job, &mut table);
    let mut ids = [0u16; CHUNKS];
    let mut ready = [0u16; CHUNKS];
    // A kept chunk has its base.
    let base = fetch::with(0, 0);
    let mut mark = [base; CHUNKS];
    // A chunk that is left out has the mark 0.
    let none = [0u8; CHUNKS];
    let count = job.programme.chunks as usize;
    let found = decide(job, &table, budget, &mut ids, &mut ready, &mut mark);
    let made = core_output::write_plan(
        count,
        job.forecast,
        1,
        false,
        &table,
        found.first,
        &ids,
        &ready,
        &mark,
        &none,
        out.marks,
        out.slots,
        out.chunks,
        out.layers,
        out.bytes,
    );
    let plan = planner::answered(made)?;
    let counts = plan.counts;
    Ok(Searched {
        rows: plan.rows,
        counts,
        steps: found.steps,
        ended: found.ended,
        shortfall: found.shortfall,
    })
}

// The best set of bases met within the budget and the plan over it, into lent marks, one a chunk,
// and rows: by slot, chunk, layer; the set is bit 0 of the marks. Refusals 5, 6, 18, 7, then 11
// where a slice is shorter than the plan; a refusal writes nothing.
pub fn search(job: &JobInput, budget: u32, out: &mut LentList) -> Result<Searched, Refusal>
    ensures same { SameSlices out.old out.new }
    ensures promise { SearchPromise (handed job.now) budget (lent_list out.old)
        result (lent_list out.new) }
{
    job::accept(job)?;
    if out.marks.len() < job.programme.chunks as usize {
        return Err(Refusal::ShortBuffer);
    }
    write_found(job, budget, out)
}
