// The obvious way: the plan of the job with each s, laid out, and its base count.
use core_prefix::prefix;
use fetch::LentList;
use job::{JobInput, Overrides, Programme};
use wait::Film;

// A film of equal chunks.
pub(crate) fn equal_film<'a>(
    chunks: u16,
    span: u16,
    limit: u16,
    sizes: &'a [u32],
    forecast: &'a [u32],
) -> Film<'a> {
    let overrides = Overrides {
        chunks: &[],
        layers: &[],
        bytes: &[],
    };
    Film {
        chunks,
        span,
        limit,
        sizes,
        overrides,
        forecast,
    }
}

// What trying every s says: the first that works, how many were tried, and whether one after the
// first doesn't work.
#[derive(Clone, Copy)]
pub(crate) struct Found {
    pub first: Option<u16>,
    pub tried: u16,
    pub worse: bool,
}

fn programme(film: &Film, s: u16) -> Programme {
    Programme {
        chunks: film.chunks,
        span: film.span,
        delay: s,
        limit: film.limit,
    }
}

// Whether the forecast reaches d(C) with s.
pub(crate) fn reaches(film: &Film, s: u16) -> bool {
    job::last_due(programme(film, s)) <= film.forecast.len()
}

// How many bases the plan with s carries. The jobs here have plans of at most 16 rows.
pub(crate) fn bases(film: &Film, s: u16) -> u16 {
    let p = programme(film, s);
    let job = JobInput {
        programme: p,
        sizes: film.sizes,
        overrides: film.overrides,
        forecast: prefix(film.forecast, job::last_due(p)),
    };
    let mut marks = [0u8; 3];
    let mut slots = [0u16; 16];
    let mut chunks = [0u16; 16];
    let mut layers = [0u8; 16];
    let mut bytes = [0u32; 16];
    let mut lent = LentList {
        marks: &mut marks,
        slots: &mut slots,
        chunks: &mut chunks,
        layers: &mut layers,
        bytes: &mut bytes,
    };
    planner::plan(&job, &mut lent).map_or(0, |plan| plan.counts[0])
}

fn after(found: Found, s: u16, works: bool) -> Found {
    match found.first {
        Some(_) => Found {
            first: found.first,
            tried: s,
            worse: found.worse || !works,
        },
        None => Found {
            first: works.then_some(s),
            tried: s,
            worse: false,
        },
    }
}

// Every s is tried, while the forecast reaches d(C); no film here has more than 8 slots.
pub(crate) fn try_all(film: &Film) -> Found {
    let mut found = Found {
        first: None,
        tried: 0,
        worse: false,
    };
    for s in 1..9 {
        if !reaches(film, s) {
            return found;
        }
        found = after(found, s, bases(film, s) == film.chunks);
    }
    found
}
