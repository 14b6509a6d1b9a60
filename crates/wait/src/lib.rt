// How long must the film wait: document 02, request 5. The smallest s whose bases are all kept, by
// one table of forecast sums and a pass over the chunks for each s; no plan is laid out. Nothing is
// monotone in s, so each is tried.
#![tactic(auto)]

ghost use Rattle.std.specs.Prelude.{◌≡◌, ◌*◌, ◌-◌, ◌/◌, ◌≤◌, min, length};
ghost use Rattle.theory_basics.specs.Refusals.{◌or_else◌};
ghost use Rattle.theory_plan.specs.lemmas.Parts.{Small};
ghost use Rattle.refusals.specs.Numbers.{by_number, refusal_number};
ghost use Rattle.job.specs.Handed.{handed_overrides};
ghost use Rattle.job.specs.Refusal.{bytes_refusal};
ghost use Rattle.core_sizes.specs.Table.{sizes_table};
ghost use Rattle.wait.specs.Wait.{FilmInRange};
ghost use Rattle.wait.specs.Answer.{WaitPromise, film_in, first_from};
ghost use Rattle.wait.specs.Answer.{input_refusal, shortest, slots_refusal};
ghost use Rattle.wait.specs.Handed.{handed_film, film_of_job};
ghost use Rattle.wait.specs.lemmas.Table.{BaseTable, FindDelayIn, KeepsAllIn, KeepsAllOut, SumTable, kept_in};

use job::{CHUNKS, JobInput, Overrides, Programme, SIZES, SLOTS, SUMS, SizeTable, SlotSums};
use refusals::{Refusal, refuse_unless};

// A job without its start delay, and a forecast of any length.
#[derive(Clone, Copy)]
pub struct Film<'a> {
    pub chunks: u16,
    pub span: u16,
    pub limit: u16,
    pub sizes: &'a [u32],
    pub overrides: Overrides<'a>,
    pub forecast: &'a [u32],
}

// What the forecast brings up to each slot, from 0 on. Sums in 64 bits: 3,600 slots need 36.
fn add_up(forecast: &[u32], sums: &mut SlotSums)
    requires { (length forecast.now ≤ 3600) × Small forecast.now }
    ensures { SumTable forecast.now sums.new }
{
    let mut sum: u64 = 0;
    sums[0] = 0;
    for (t, bytes) in forecast.iter().enumerate() {
        sum += u64::from(*bytes);
        sums[t + 1] = sum;
    }
}

// The base's bytes of each chunk, out of the table of all sizes.
fn read_bases(chunks: u16, table: &SizeTable, bases: &mut [u32; CHUNKS])
    requires { chunks ≤ 500 }
    ensures { BaseTable chunks table.now bases.new }
{
    for i in 0..chunks {
        bases[i as usize] = core_sizes::size_at(table, i + 1, 0);
    }
}

// The base of each chunk of a film as handed. Only here its sizes are read.
fn set_bases(job: &JobInput, bases: &mut [u32; CHUNKS])
    requires { job.now.programme.chunks ≤ 500 }
    ensures { BaseTable job.now.programme.chunks
        (sizes_table job.now.sizes.now (handed_overrides job.now.overrides))
        bases.new }
{
    let chunks = job.programme.chunks;
    let unset = chunks as u32;
    let mut table = [unset; SIZES];
    core_sizes::fill_sizes(job, &mut table);
    read_bases(chunks, &table, bases);
}

// What a pass reads: C, L, H, each chunk's base, and what the forecast brings up to each slot.
#[derive(Clone, Copy)]
struct Pass<'a> {
    chunks: usize,
    span: usize,
    held: usize,
    bases: &'a [u32; CHUNKS],
    sums: &'a SlotSums,
}

// Whether the job with s keeps every base. From the last chunk down, begins holds what the forecast
// may have brought at most when the chunk begins: no more than at its due slot or when the next one
// begins, less its own bytes. It fails if that is below nothing, or if the chunk that the buffer
// holds back until this one is due would have to begin before.
fn keeps_all(pass: &Pass, s: usize, begins: &mut [u64; 1000]) -> bool
    requires { KeepsAllIn pass.now s begins.old }
    ensures { KeepsAllOut pass.now s begins.new result }
{
    let Pass {
        chunks,
        span,
        held,
        bases,
        sums,
    } = *pass;
    let last = (chunks - 1) * span + s;
    let mut begin = sums[last];
    for q in (0..chunks).rev() {
        let due = q * span + s;
        let before = due - 1;
        let by = sums[due].min(begin);
        let size = u64::from(bases[q]);
        if by < size {
            return false;
        }
        begin = by - size;
        begins[q] = begin;
        let back = q + held;
        if begins[back] < sums[before] {
            return false;
        }
    }
    true
}

// The first s that keeps every base, or 0. A pass writes only places below C, so one table serves
// every s.
// Kept: 0 for none, as in the meaning, since every s is at least 1.
fn find_delay(pass: &Pass, tries: usize, begins: &mut [u64; 1000]) -> usize
    requires { FindDelayIn pass.now tries begins.old }
    ensures { result ≡ first_from (kept_in pass.now) 1 tries }
{
    for s in 1..=tries {
        if keeps_all(pass, s, begins) {
            return s;
        }
    }
    0
}

// H, cut to 500: no chunk has more behind it.
fn held_behind(p: Programme) -> usize
    ensures { result ≡ min (p.limit / p.span) 500 }
{
    (job::held_most(p) as usize).min(CHUNKS)
}

// How many s the forecast reaches, p being the programme with s = 1.
fn count_tries(p: Programme, slots: usize) -> usize
    requires { p.delay ≡ 1 }
    ensures { result ≡ slots - (p.chunks - 1) * p.span }
{
    slots.saturating_sub(job::last_due(p) - 1)
}

// The shortest wait of a film in range, handed as its job with s = 1; 0 if no s within the forecast
// works.
fn shortest_delay(job: &JobInput) -> usize
    requires { (job.now.programme.delay ≡ 1) × FilmInRange (film_in (film_of_job job.now)) }
    ensures { (result ≡ shortest (film_in (film_of_job job.now))) × (result ≤ 3600) }
{
    let p = job.programme;
    let unset = p.chunks as u32;
    let mut sums = [u64::from(unset); SUMS];
    let mut bases = [unset; CHUNKS];
    let mut begins = [60397977600u64; 1000];
    add_up(job.forecast, &mut sums);
    set_bases(job, &mut bases);
    let pass = Pass {
        chunks: p.chunks as usize,
        span: p.span as usize,
        held: held_behind(p),
        bases: &bases,
        sums: &sums,
    };
    find_delay(&pass, count_tries(p, job.forecast.len()), &mut begins)
}

// 7: no slot, or above 3,600 slots.
fn accept_slots(forecast: &[u32]) -> Result<(), Refusal>
    ensures { refusal_number result ≡ slots_refusal forecast.now }
{
    let within = !forecast.is_empty() && forecast.len() <= SLOTS;
    refuse_unless(within, Refusal::Forecast)
}

// 7: the slots, then their bytes.
fn accept_forecast(forecast: &[u32]) -> Result<(), Refusal>
    ensures { refusal_number result ≡
        (slots_refusal forecast.now or_else bytes_refusal forecast.now) }
{
    accept_slots(forecast)?;
    job::accept_bytes(forecast)
}

// 5, 6, 18, 7 in that order; s and d(C) are no part of it.
#[tactic(auto, unfolding(crate::specs::Answer::input_refusal))]
fn accept_input(job: &JobInput) -> Result<(), Refusal>
    ensures { refusal_number result ≡ input_refusal (film_of_job job.now) }
{
    let p = job.programme;
    job::accept_film(p)?;
    job::accept_sizes(job.sizes)?;
    job::accept_whole(&job.overrides)?;
    job::accept_overrides(p, job.sizes, &job.overrides)?;
    accept_forecast(job.forecast)
}

// How long the film must wait: the smallest s for which the plan skips no base. Refused: 5 for C, L
// and the limit, 6, 18, 7, then 16 exactly if no s within the forecast works.
pub fn wait(film: &Film) -> Result<u16, Refusal>
    ensures { WaitPromise (handed_film film.now) (by_number result) }
{
    let job = JobInput {
        programme: Programme {
            chunks: film.chunks,
            span: film.span,
            delay: 1,
            limit: film.limit,
        },
        sizes: film.sizes,
        overrides: film.overrides,
        forecast: film.forecast,
    };
    accept_input(&job)?;
    let s = shortest_delay(&job);
    if s == 0 {
        Err(Refusal::NoWait)
    } else {
        Ok(s as u16)
    }
}
