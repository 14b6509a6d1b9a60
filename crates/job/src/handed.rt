// A job as a direct call hands it over.
ghost use Rattle.std.specs.Prelude.{◌≡◌, ◌&&◌, min, length};
ghost use Rattle.refusals.specs.Numbers.{refusal_number};
ghost use Rattle.job.specs.Refusal.{named, sized, comes, overrides_refusal};
ghost use Rattle.job.specs.Input.{whole_refusal, job_refusal};
ghost use Rattle.job.specs.Handed.{handed, handed_overrides};

use crate::{MOST_BYTES, Programme, accept_fields, accept_forecast, accept_last_due, accept_sizes};
use refusals::{Refusal, refuse_unless};

// SZs in three slices of one length: an SZ is an element of each, its chunk, its layer, its size.
#[derive(Clone, Copy)]
pub struct Overrides<'a> {
    pub chunks: &'a [u16],
    pub layers: &'a [u8],
    pub bytes: &'a [u32],
}

// A programme, the layer sizes, the base first, the SZs, and the forecast.
#[derive(Clone, Copy)]
pub struct JobInput<'a> {
    pub programme: Programme,
    pub sizes: &'a [u32],
    pub overrides: Overrides<'a>,
    pub forecast: &'a [u32],
}

impl Overrides<'_> {
    // How many SZs are handed whole.
    pub fn whole(&self) -> usize
        ensures { result ≡ min (length self.now.chunks.now)
            (min (length self.now.layers.now) (length self.now.bytes.now)) }
    {
        self.chunks
            .len()
            .min(self.layers.len().min(self.bytes.len()))
    }
}

// 18: an SZ not handed whole.
pub fn accept_whole(overrides: &Overrides) -> Result<(), Refusal>
    ensures { refusal_number result ≡
        whole_refusal overrides.now.chunks.now overrides.now.layers.now overrides.now.bytes.now }
{
    let count = overrides.chunks.len();
    let whole = overrides.layers.len() == count && overrides.bytes.len() == count;
    refuse_unless(whole, Refusal::Sz)
}

// By chunk and then layer.
fn comes_before(c: u16, l: u8, chunk: u16, layer: u8) -> bool
    ensures { result ≡ comes c l chunk layer }
{
    c < chunk || (c == chunk && l < layer)
}

// An SZ that is in order: its chunk after the first and its layer, both in the job, its size in
// range and not the layer's own, and it comes after layer l of chunk c, the one before it.
fn in_order(p: Programme, sizes: &[u32], c: u16, l: u8, chunk: u16, layer: u8, size: u32) -> bool
    ensures { result ≡ (named p sizes.now (record { chunk = chunk; layer = layer; bytes = size })
        && sized (record { chunk = chunk; layer = layer; bytes = size }))
        && comes c l chunk layer }
{
    let n = layer as usize;
    n < sizes.len()
        && size != sizes[n]
        && crate::is_within(2, p.chunks as u32, chunk as u32)
        && crate::is_within(1, MOST_BYTES, size)
        && comes_before(c, l, chunk, layer)
}

// 18: an SZ's numbers, in one pass over the three slices.
pub fn accept_overrides(p: Programme, sizes: &[u32], overrides: &Overrides) -> Result<(), Refusal>
    ensures { refusal_number result ≡ overrides_refusal p sizes.now (handed_overrides overrides.now) }
{
    let mut chunk: u16 = 0;
    let mut layer: u8 = 0;
    for i in 0..overrides.whole() {
        let c = overrides.chunks[i];
        let l = overrides.layers[i];
        if !in_order(p, sizes, chunk, layer, c, l, overrides.bytes[i]) {
            return Err(Refusal::Sz);
        }
        chunk = c;
        layer = l;
    }
    Ok(())
}

// Refusals 5, 6, 18 and 7 of a direct call, in that order; none exactly for an accepted job whose
// SZs are handed whole.
#[tactic(auto, unfolding(crate::specs::Input::job_refusal))]
pub fn accept(job: &JobInput) -> Result<(), Refusal>
    ensures { refusal_number result ≡ job_refusal (handed job.now) }
{
    let p = job.programme;
    accept_fields(p)?;
    accept_last_due(p)?;
    accept_sizes(job.sizes)?;
    accept_whole(&job.overrides)?;
    accept_overrides(p, job.sizes, &job.overrides)?;
    accept_forecast(p, job.forecast)
}
