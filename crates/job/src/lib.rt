// What a job is, and the checks of a job handed in a direct call: refusals 5, 6, 18 and 7, a
// function a number.
#![tactic(auto)]

ghost use Rattle.std.specs.Prelude.{◌≡◌, ◌&&◌, ◌/◌, ◌≤◌, get_or, leb};
ghost use Rattle.theory_basics.specs.Tests.{all};
ghost use Rattle.refusals.specs.Numbers.{refusal_number};
ghost use Rattle.job.specs.Job.{due_slot, last_due};
ghost use Rattle.job.specs.Refusal.{within, film_refusal, delay_refusal, fields_refusal, last_due_refusal};
ghost use Rattle.job.specs.Refusal.{sizes_refusal, named, sized, comes, overrides_refusal, bytes_refusal};
ghost use Rattle.job.specs.Refusal.{slots_refusal, forecast_refusal};
ghost use Rattle.job.specs.Input.{overrides_of, whole_refusal, job_refusal};
ghost use Rattle.job.specs.lemmas.Greatest.{greatest};

use refusals::{Refusal, refuse_unless};

mod handed;

pub use handed::{JobInput, Overrides, accept, accept_overrides, accept_whole};

// The limits of a job, as document 01 and request 8 have them: at most 500 chunks, 4 layers, 3,600
// slots, 16,777,216 bytes in a slot or a layer.
pub const CHUNKS: usize = 500;

pub const LAYERS: usize = 4;

pub const SLOTS: usize = 3600;

pub const MOST_BYTES: u32 = 16777216;

// A size for each layer of each chunk; an SZ for each of them but chunk 1's.
pub const SIZES: usize = 2000;

pub const OVERRIDES: usize = 1996;

// A sum for each slot and one before the first.
pub const SUMS: usize = 3601;

// The most rows of a plan's own list.
pub const ROWS: usize = 5599;

// Sizes by chunk and layer, and sums by slot.
pub type SizeTable = [u32; SIZES];

pub type SlotSums = [u64; SUMS];

// Document 01's C, L, s and buffer limit.
#[derive(Clone, Copy, Debug, PartialEq, Eq)]
pub struct Programme {
    pub chunks: u16,
    pub span: u16,
    pub delay: u16,
    pub limit: u16,
}

// d(i), the slot in which chunk i is due.
pub fn due_slot(p: Programme, i: u16) -> usize
    ensures { result ≡ due_slot p i }
{
    (i as usize).saturating_sub(1) * (p.span as usize) + (p.delay as usize)
}

// d(C), the last slot.
pub fn last_due(p: Programme) -> usize
    ensures { result ≡ last_due p }
{
    due_slot(p, p.chunks)
}

// H, how many chunks the buffer holds.
pub fn held_most(p: Programme) -> u16
    ensures { result ≡ p.limit / p.span }
{
    p.limit.checked_div(p.span).unwrap_or(0)
}

// The layer's own size; 0 for a layer that the job doesn't have.
pub fn own_size(sizes: &[u32], layer: usize) -> u32
    ensures { result ≡ get_or sizes.now layer 0 }
{
    sizes.get(layer).copied().unwrap_or(0)
}

fn is_within(lo: u32, hi: u32, x: u32) -> bool
    ensures { result ≡ within lo hi x }
{
    lo <= x && x <= hi
}

// 5: C, L or the limit out of range.
pub fn accept_film(p: Programme) -> Result<(), Refusal>
    ensures { refusal_number result ≡ film_refusal p }
{
    let limit = is_within(0, 65535, p.limit as u32);
    let span = is_within(1, 60, p.span as u32);
    let chunks = is_within(1, CHUNKS as u32, p.chunks as u32);
    refuse_unless(chunks && (span && limit), Refusal::ProgrammeField)
}

// 5: the start delay out of range.
pub fn accept_delay(p: Programme) -> Result<(), Refusal>
    ensures { refusal_number result ≡ delay_refusal p }
{
    refuse_unless(
        is_within(1, SLOTS as u32, p.delay as u32),
        Refusal::ProgrammeField,
    )
}

// 5 for a field of the programme out of range.
pub fn accept_fields(p: Programme) -> Result<(), Refusal>
    ensures { refusal_number result ≡ fields_refusal p }
{
    accept_film(p)?;
    accept_delay(p)
}

// 5: d(C) above 3,600.
pub fn accept_last_due(p: Programme) -> Result<(), Refusal>
    ensures { refusal_number result ≡ last_due_refusal p }
{
    refuse_unless(last_due(p) <= SLOTS, Refusal::ProgrammeField)
}

// Every number is at least lo and at most hi.
fn all_within(lo: u32, hi: u32, s: &[u32]) -> bool
    ensures { result ≡ all (within lo hi) s.now }
{
    s.iter().all(|&x| lo <= x && x <= hi)
}

// 6: a size out of range, a fifth layer, or none.
pub fn accept_sizes(sizes: &[u32]) -> Result<(), Refusal>
    ensures { refusal_number result ≡ sizes_refusal sizes.now }
{
    let n = sizes.len();
    let few = 1 <= n;
    let many = n <= LAYERS;
    refuse_unless(
        (few && many) && all_within(1, MOST_BYTES, sizes),
        Refusal::LayerSize,
    )
}

// The greatest of the numbers, without a branch in the loop.
fn most(s: &[u32]) -> u32
    ensures { result ≡ greatest s.now }
{
    s.iter().fold(0, |m, &x| m.max(x))
}

// No number is greater than this one, whose bits are those of all.
fn joined(s: &[u32]) -> u32
    ensures { greatest s.now ≤ result }
{
    let mut m: u32 = 0;
    for x in s {
        m |= *x;
    }
    m
}

// No number is above MOST_BYTES. The bits of all say so but where a number is MOST_BYTES itself,
// for a third of the instructions that the greatest costs: a forecast has up to 3,600.
fn none_above(s: &[u32]) -> bool
    ensures { result ≡ leb (greatest s.now) 16777216 }
{
    joined(s) <= MOST_BYTES || most(s) <= MOST_BYTES
}

// 7: bytes out of range.
#[tactic(auto, using(crate::specs::lemmas::Greatest::greatest_within))]
pub fn accept_bytes(forecast: &[u32]) -> Result<(), Refusal>
    ensures { refusal_number result ≡ bytes_refusal forecast.now }
{
    refuse_unless(none_above(forecast), Refusal::Forecast)
}

// 7: a slot total other than d(C).
pub fn accept_slots(p: Programme, forecast: &[u32]) -> Result<(), Refusal>
    ensures { refusal_number result ≡ slots_refusal p forecast.now }
{
    refuse_unless(forecast.len() == last_due(p), Refusal::Forecast)
}

// 7 for bytes out of range, then for a number of slots other than d(C).
pub fn accept_forecast(p: Programme, forecast: &[u32]) -> Result<(), Refusal>
    ensures { refusal_number result ≡ forecast_refusal p forecast.now }
{
    accept_bytes(forecast)?;
    accept_slots(p, forecast)
}
