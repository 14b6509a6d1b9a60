// All films of a family: C 1 to 4, L 1 or 2, s 1 or 2, limit 0 to 3, last due slot at most 4, each
// forecast of 0, 1 or 2 bytes a slot, and four kinds of uneven sizes. Of each the plan is made,
// then most pictures are found with enough passes, and the checker asked.
use crate::cases::WORK;
use core_prefix::prefix;
use fetch::{FetchList, LentList, Rows};
use job::{JobInput, Overrides, Programme, ROWS};
use most::MostPlan;
use std::io;

// Films; the bases of their plans, of the sets found, and of the two bounds; how many are exact,
// and how many lists the checker passes.
#[derive(Clone, Copy)]
struct Tally {
    films: u64,
    plan: u64,
    found: u64,
    bound: u64,
    bound_any: u64,
    exact: u64,
    passed: u64,
}

fn add(sum: &mut u64, n: u64) {
    *sum = sum.saturating_add(n);
}

fn note(plan: u16, found: MostPlan, passed: bool, tally: &mut Tally) {
    add(&mut tally.films, 1);
    add(&mut tally.plan, u64::from(plan));
    add(&mut tally.found, u64::from(found.counts[0]));
    add(&mut tally.bound, u64::from(found.bound));
    add(&mut tally.bound_any, u64::from(found.bound_any));
    add(&mut tally.exact, u64::from(found.exact));
    add(&mut tally.passed, u64::from(passed));
}

// How many bases the plan has.
fn planned(job: &JobInput) -> u16 {
    let mut marks = [0u8; 4];
    let mut slots = [0u16; 24];
    let mut chunks = [0u16; 24];
    let mut layers = [0u8; 24];
    let mut bytes = [0u32; 24];
    let mut lent = LentList {
        marks: &mut marks,
        slots: &mut slots,
        chunks: &mut chunks,
        layers: &mut layers,
        bytes: &mut bytes,
    };
    planner::plan(job, &mut lent).map_or(0, |plan| plan.counts[0])
}

// No film here is refused.
fn one_film(job: &JobInput, tally: &mut Tally) {
    let mut work = [0u64; WORK];
    let mut marks = [0u8; 4];
    let mut slots = [0u16; ROWS];
    let mut chunks = [0u16; ROWS];
    let mut layers = [0u8; ROWS];
    let mut bytes = [0u32; ROWS];
    let mut lent = LentList {
        marks: &mut marks,
        slots: &mut slots,
        chunks: &mut chunks,
        layers: &mut layers,
        bytes: &mut bytes,
    };
    let Ok(found) = most::most_pictures(job, 9, &mut work, &mut lent) else {
        return;
    };
    let n = found.rows;
    let rows = Rows {
        slots: prefix(&slots, n),
        chunks: prefix(&chunks, n),
        layers: prefix(&layers, n),
        bytes: prefix(&bytes, n),
    };
    let list = FetchList {
        marks: prefix(&marks, job.programme.chunks as usize),
        rows,
    };
    let passed = checker::check(job, &list) == Ok(0);
    note(planned(job), found, passed, tally);
}

// Layer sizes, and SZs of bases by chunk.
#[derive(Clone, Copy)]
struct Kind {
    sizes: &'static [u32],
    chunks: &'static [u16],
    bytes: &'static [u32],
}

const KINDS: [Kind; 4] = [
    Kind {
        sizes: &[1],
        chunks: &[2],
        bytes: &[2],
    },
    Kind {
        sizes: &[2, 1],
        chunks: &[2],
        bytes: &[1],
    },
    Kind {
        sizes: &[1, 1],
        chunks: &[3],
        bytes: &[2],
    },
    Kind {
        sizes: &[2],
        chunks: &[2, 3],
        bytes: &[1, 1],
    },
];

// The SZs of chunks of the job.
fn every_kind(p: Programme, forecast: &[u32], tally: &mut Tally) {
    for kind in &KINDS {
        let n = kind.chunks.iter().filter(|&&i| i <= p.chunks).count();
        let overrides = Overrides {
            chunks: prefix(kind.chunks, n),
            layers: prefix(&[0, 0], n),
            bytes: prefix(kind.bytes, n),
        };
        let job = JobInput {
            programme: p,
            sizes: kind.sizes,
            overrides,
            forecast,
        };
        one_film(&job, tally);
    }
}

fn digit(f: u16) -> u32 {
    (f % 3) as u32
}

// The programme numbered k.
fn programme(k: u16) -> Programme {
    Programme {
        chunks: 1 + k % 4,
        span: 1 + k / 4 % 2,
        delay: 1 + k / 8 % 2,
        limit: k / 16 % 4,
    }
}

// How many forecasts there are of so many slots; none above 4.
fn forecasts(slots: usize) -> u16 {
    match slots {
        1 => 3,
        2 => 9,
        3 => 27,
        4 => 81,
        _ => 0,
    }
}

fn every_forecast(p: Programme, tally: &mut Tally) {
    let slots = job::last_due(p);
    for f in 0..forecasts(slots) {
        let forecast = [digit(f), digit(f / 3), digit(f / 9), digit(f / 27)];
        every_kind(p, prefix(&forecast, slots), tally);
    }
}

fn say(rt: &impl Print, tally: Tally) -> io::Result<()> {
    let Tally {
        films,
        plan,
        found,
        bound,
        bound_any,
        exact,
        passed,
    } = tally;
    print!(rt; "family: films {films}, bases of the plans {plan}, found {found}")?;
    println!(rt; ", bounds {bound} and {bound_any}, exact {exact}, passed {passed}")
}

pub(crate) fn all(rt: &impl Print) -> io::Result<()> {
    let mut tally = Tally {
        films: 0,
        plan: 0,
        found: 0,
        bound: 0,
        bound_any: 0,
        exact: 0,
        passed: 0,
    };
    for k in 0..64 {
        every_forecast(programme(k), &mut tally);
    }
    say(rt, tally)
}
