// The planner: marks, rows and counts of a job's plan, as document 01 decides and lists them.
#![tactic(auto)]

ghost use Rattle.std.specs.Prelude.{◌≡◌, ◌≤◌, length};
ghost use Rattle.refusals.specs.Numbers.{by_number};
ghost use Rattle.job.specs.Input.{job_refusal};
ghost use Rattle.job.specs.Handed.{handed};
ghost use Rattle.fetch.specs.Handed.{SameSlices, lent_list};
ghost use Rattle.planner.specs.Answer.{PlanOutput, PlanPromise, compared};
ghost use Rattle.planner.specs.lemmas.Outputs.{laid};

use core_output::Output;
use fetch::LentList;
use job::{CHUNKS, JobInput, SIZES};
use refusals::Refusal;
use std::cmp::Ordering;

// How many rows the plan has, and how many chunks carry each layer.
#[derive(Clone, Copy)]
pub struct Planned {
    pub rows: usize,
    pub counts: [u16; 4],
}

// How counts stand to others at the first layer, from the base up, where they differ.
pub fn compare(a: [u16; 4], b: [u16; 4]) -> Ordering
    ensures { result ≡ compared a b }
{
    a.cmp(&b)
}

// The answer for what was laid: its rows and counts where the slices hold it whole, else 11.
pub fn answered(made: Output) -> Result<Planned, Refusal>
    ensures { by_number result ≡ laid made }
{
    if made.whole {
        let counts = made.counts;
        Ok(Planned {
            rows: made.rows,
            counts,
        })
    } else {
        Err(Refusal::ShortBuffer)
    }
}

// The plan of an accepted job, decided and handed over.
fn write_decided(job: &JobInput, out: &mut LentList) -> Result<Planned, Refusal>
    requires { (job_refusal (handed job.now) ≡ 0)
        × (job.now.programme.chunks ≤ length out.old.marks.now) }
    ensures same { SameSlices out.old out.new }
    ensures output { PlanOutput (handed job.now) (lent_list out.old) result (lent_list out.new) }
{
    // Every place is written before it is read. A filling that is no constant is stored in wide
    // words, faster than cleared.
    let p = job.programme;
    let unset = p.chunks as u32;
    let mut table = [unset; SIZES];
    core_sizes::fill_sizes(job, &mut table);
    let mut ids = [0u16; CHUNKS];
    let mut ready = [0u16; CHUNKS];
    // A kept chunk has its base.
    let base = fetch::with(0, 0);
    let mut mark = [base; CHUNKS];
    // A chunk that is left out has the mark 0.
    let none = [0u8; CHUNKS];
    let count = p.chunks as usize;
    let first = core_decide::decide(
        p,
        job.sizes.len(),
        &table,
        job.forecast,
        1,
        &mut ids,
        &mut ready,
        &mut mark,
    );
    let made = core_output::write_plan(
        count,
        job.forecast,
        1,
        false,
        &table,
        first,
        &ids,
        &ready,
        &mark,
        &none,
        out.marks,
        out.slots,
        out.chunks,
        out.layers,
        out.bytes,
    );
    answered(made)
}

// The plan of a job into lent marks, one a chunk, and rows: by slot, chunk, layer. Refusals 5, 6,
// 18, 7, then 11 where a slice is shorter than the plan; a refusal writes nothing.
pub fn plan(job: &JobInput, out: &mut LentList) -> Result<Planned, Refusal>
    ensures same { SameSlices out.old out.new }
    ensures promise { PlanPromise (handed job.now) (lent_list out.old) result (lent_list out.new) }
{
    job::accept(job)?;
    if out.marks.len() < job.programme.chunks as usize {
        return Err(Refusal::ShortBuffer);
    }
    write_decided(job, out)
}
