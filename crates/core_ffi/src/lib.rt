// Internal. What the calls for C and Rust share: each library's answer as one number, and what they
// hand over beside it in lent slices.
#![tactic(auto)]

ghost use Rattle.std.specs.Prelude.{◌≡◌, Err};
ghost use Rattle.theory_basics.specs.Refusals.{◌or_else◌};
ghost use Rattle.refusals.specs.Numbers.{by_number, refusal_number};
ghost use Rattle.job.specs.Input.{job_refusal};
ghost use Rattle.job.specs.Handed.{handed};
ghost use Rattle.core_ffi.specs.Convention.{answered};
ghost use Rattle.core_ffi.specs.Plans.{four_counts};
ghost use Rattle.core_ffi.specs.lemmas.Numbers.{answer_number};

use job::JobInput;
use refusals::Refusal;

mod files;
mod meters;
mod plans;

pub use files::read_with_lengths;
pub use meters::{begin_meter, forecast, take_sample};
pub use plans::{most_with_bounds, plan_with_counts, replan_with_counts, search_with_walk};

// The answer of a C call: a result, or 2^32 and the refusal's number more.
pub fn number(answer: Result<usize, Refusal>) -> u64
    ensures { result ≡ answer_number (by_number answer) }
{
    match answer {
        Ok(n) => n as u64,
        Err(refusal) => 4294967296 + refusal.number() as u64,
    }
}

// The same of an answer without a result: 0, or the refusal.
#[tactic(auto, unfolding(crate::specs::Convention::answered))]
pub fn done(answer: Result<(), Refusal>) -> u64
    ensures { result ≡ answered (refusal_number answer) 0 }
{
    number(answer.map(|()| 0))
}

// Where a slice lent beside the library's own is too short: what the job is refused by, or 11.
fn refuse_short(job: &JobInput) -> Result<usize, Refusal>
    ensures { by_number result ≡ Err (job_refusal (handed job.now) or_else 11) }
{
    job::accept(job)?;
    Err(Refusal::ShortBuffer)
}

// The four counts of a slice; counts past its end are 0.
pub fn four_counts(counts: &[u16]) -> [u16; 4]
    ensures { result ≡ four_counts counts.now }
{
    std::array::from_fn(|k| counts.get(k).copied().unwrap_or(0))
}
