// The reason under each missing layer (request 14): the lines of a job's plan as text in a lent
// buffer. No text is longer than 94,000 bytes, so a buffer of that length takes it at once; for a
// shorter one it is laid out aside and copied if it fits.
#![tactic(auto)]

use job::{CHUNKS, JobInput, SIZES, SUMS};
use refusals::Refusal;

mod tables;

ghost use Rattle.std.specs.Prelude.{◌≤◌, length, ◌≡◌};
ghost use Rattle.job.specs.Input.{job_in, job_refusal};
ghost use Rattle.job.specs.Handed.{handed};
ghost use Rattle.job.specs.Job.{Accepted};
ghost use Rattle.theory_reasons.specs.Lines.{plan_text};
ghost use Rattle.core_text.specs.lemmas.Places.{Put};
ghost use Rattle.reasons.specs.Answer.{ReasonsPromise};
ghost use Rattle.reasons.specs.lemmas.Told.{Told};

// All lines of an accepted job's plan.
fn put_plan(job: &JobInput, out: &mut [u8]) -> usize
    requires { Accepted (job_in (handed job.now))
        × (length (plan_text (job_in (handed job.now))) ≤ length out.old) }
    ensures { Put out.old 0 (plan_text (job_in (handed job.now))) out.new result }
{
    // Every place is written before it is read. A filling that is no constant is stored in wide
    // words, faster than cleared.
    let p = job.programme;
    let unset = p.chunks as u32;
    let mut table = [unset; SIZES];
    let mut sums = [unset; SIZES];
    let mut after = [unset as u64; SUMS];
    let mut ids = [0u16; CHUNKS];
    let mut ready = [0u16; CHUNKS];
    // A kept chunk has its base.
    let base = fetch::with(0, 0);
    let mut mark = [base; CHUNKS];
    let mut levels = [0u8; CHUNKS];
    let layers = job.sizes.len();
    let held = job::held_most(p) as usize;
    core_sizes::fill_sizes(job, &mut table);
    let most = core_moore_hodgson::applies(p, &table);
    let first = core_decide::decide(
        p,
        layers,
        &table,
        job.forecast,
        1,
        &mut ids,
        &mut ready,
        &mut mark,
    );
    tables::set_levels(&ids, &mark, first, &mut levels);
    tables::sum_sizes(&table, &mut sums);
    core_decide::sum_after(job.forecast, 1, &mut after);
    core_reasons::put_reasons(p, held, layers as u8, most, &sums, &after, &levels, out)
}

// The lines of an accepted job's plan into a buffer that may be too short.
fn put_tight(job: &JobInput, out: &mut [u8]) -> Result<usize, Refusal>
    requires { job_refusal (handed job.now) ≡ 0 }
    ensures { Told (handed job.now) out.old out.new result }
{
    let mut text = [0u8; 94000];
    let n = put_plan(job, &mut text);
    if out.len() < n {
        return Err(Refusal::ShortBuffer);
    }
    records::put(out, 0, &text[..n]);
    Ok(n)
}

// The lines of a job's plan, one under each layer of the job that the plan doesn't carry. Refused:
// 5, 6, 18, 7 by the job, then 11 exactly if out is shorter than the text.
pub fn reasons(job: &JobInput, out: &mut [u8]) -> Result<usize, Refusal>
    ensures { ReasonsPromise (handed job.now) out.old result out.new }
{
    job::accept(job)?;
    if out.len() < 94000 {
        return put_tight(job, out);
    }
    Ok(put_plan(job, out))
}
