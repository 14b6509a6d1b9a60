// All jobs of a family: C 1 to 3, L and s 1 or 2, limit 0 to 3, last due slot at most 4, each
// forecast of 0, 1 or 2 bytes a slot, and four kinds of uneven sizes; each for every budget up to
// the walk's length and one more.
use core_prefix::prefix;
use fetch::LentList;
use job::{JobInput, Overrides, Programme};
use search::Searched;
use std::io;

// Jobs, searches, those that ended, those cut with no shortfall, steps, bases, shortfalls, and a
// number that every value handed over changes.
#[derive(Clone, Copy)]
struct Tally {
    jobs: u64,
    searches: u64,
    ended: u64,
    sure: u64,
    steps: u64,
    bases: u64,
    short: u64,
    check: u64,
}

fn add(sum: &mut u64, n: u64) {
    *sum = sum.saturating_add(n);
}

fn mix(check: u64, v: u64) -> u64 {
    (check % 1000003 * 31 + v % 1000003) % 1000003
}

fn mix_all<T: Copy + Into<u64>>(check: u64, s: &[T]) -> u64 {
    s.iter().fold(check, |check, &v| mix(check, v.into()))
}

// One search more, whose list mixed into the check number so far gives this one.
fn note(found: Searched, check: u64, tally: &mut Tally) {
    let steps = u64::from(found.steps);
    let short = u64::from(found.shortfall);
    let sure = !found.ended && short == 0;
    add(&mut tally.searches, 1);
    add(&mut tally.ended, u64::from(found.ended));
    add(&mut tally.sure, u64::from(sure));
    add(&mut tally.steps, steps);
    add(&mut tally.bases, u64::from(found.counts[0]));
    add(&mut tally.short, short);
    let counted = mix_all(check, &found.counts);
    tally.check = mix_all(counted, &[steps, u64::from(found.ended), short]);
}

// One budget; the steps taken are handed back. No job here is refused.
fn try_budget(job: &JobInput, budget: u32, tally: &mut Tally) -> u32 {
    let mut marks = [0u8; 3];
    let mut slots = [0u16; 9];
    let mut chunks = [0u16; 9];
    let mut layers = [0u8; 9];
    let mut bytes = [0u32; 9];
    let mut lent = LentList {
        marks: &mut marks,
        slots: &mut slots,
        chunks: &mut chunks,
        layers: &mut layers,
        bytes: &mut bytes,
    };
    let Ok(found) = search::search(job, budget, &mut lent) else {
        return 0;
    };
    let n = found.rows;
    let check = mix_all(tally.check, &marks);
    let check = mix_all(check, prefix(&slots, n));
    let check = mix_all(check, prefix(&chunks, n));
    let check = mix_all(check, prefix(&layers, n));
    let check = mix_all(check, prefix(&bytes, n));
    note(found, check, tally);
    found.steps
}

// No walk of three chunks has more than 14 steps.
fn every_budget(job: &JobInput, tally: &mut Tally) {
    add(&mut tally.jobs, 1);
    let length = try_budget(job, u32::MAX, tally);
    for budget in 0..length.saturating_add(2).min(16) {
        try_budget(job, budget, tally);
    }
}

// Layer sizes, and SZs of bases by chunk.
#[derive(Clone, Copy)]
struct Kind {
    sizes: &'static [u32],
    chunks: &'static [u16],
    bytes: &'static [u32],
}

const KINDS: [Kind; 4] = [
    Kind {
        sizes: &[1],
        chunks: &[2],
        bytes: &[2],
    },
    Kind {
        sizes: &[2, 1],
        chunks: &[2],
        bytes: &[1],
    },
    Kind {
        sizes: &[1, 1],
        chunks: &[3],
        bytes: &[2],
    },
    Kind {
        sizes: &[2],
        chunks: &[2, 3],
        bytes: &[1, 1],
    },
];

// The SZs of chunks of the job.
fn every_kind(p: Programme, forecast: &[u32], tally: &mut Tally) {
    for kind in &KINDS {
        let n = kind.chunks.iter().filter(|&&i| i <= p.chunks).count();
        let overrides = Overrides {
            chunks: prefix(kind.chunks, n),
            layers: prefix(&[0, 0], n),
            bytes: prefix(kind.bytes, n),
        };
        let job = JobInput {
            programme: p,
            sizes: kind.sizes,
            overrides,
            forecast,
        };
        every_budget(&job, tally);
    }
}

fn digit(f: u16) -> u32 {
    (f % 3) as u32
}

// The programme numbered k.
fn programme(k: u16) -> Programme {
    Programme {
        chunks: 1 + k % 3,
        span: 1 + k / 3 % 2,
        delay: 1 + k / 6 % 2,
        limit: k / 12 % 4,
    }
}

// How many forecasts there are of so many slots; none above 4.
fn forecasts(slots: usize) -> u16 {
    match slots {
        1 => 3,
        2 => 9,
        3 => 27,
        4 => 81,
        _ => 0,
    }
}

fn every_forecast(p: Programme, tally: &mut Tally) {
    let slots = job::last_due(p);
    for f in 0..forecasts(slots) {
        let forecast = [digit(f), digit(f / 3), digit(f / 9), digit(f / 27)];
        every_kind(p, prefix(&forecast, slots), tally);
    }
}

fn say(rt: &impl Print, tally: Tally) -> io::Result<()> {
    let Tally {
        jobs,
        searches,
        ended,
        sure,
        steps,
        bases,
        short,
        check,
    } = tally;
    print!(rt; "family: jobs {jobs}, searches {searches}, ended {ended}")?;
    print!(rt; ", cut without a shortfall {sure}, steps {steps}, bases {bases}")?;
    println!(rt; ", shortfalls {short}, check {check}")
}

pub(crate) fn all(rt: &impl Print) -> io::Result<()> {
    let mut tally = Tally {
        jobs: 0,
        searches: 0,
        ended: 0,
        sure: 0,
        steps: 0,
        bases: 0,
        short: 0,
        check: 0,
    };
    for k in 0..48 {
        every_forecast(programme(k), &mut tally);
    }
    say(rt, tally)
}
