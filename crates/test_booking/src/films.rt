// Two films of the same last due slot on one link: each step plans the film anew on the forecast
// that it was planned on, and checks, books or releases its list on the link's.
use crate::print::{done_said, forecast_said, verdict_said};
use core_prefix::prefix;
use fetch::{FetchList, LentList, Rows};
use job::{JobInput, Overrides, Programme};
use std::io;

#[derive(Clone, Copy)]
enum Call {
    Check,
    Book,
    Release,
}

#[derive(Clone, Copy)]
enum Film {
    Main,
    Safety,
}

fn name(film: Film) -> &'static str {
    match film {
        Film::Main => "main film",
        Film::Safety => "safety film",
    }
}

// What the link carries before the first booking.
const BEFORE: [u32; 6] = [5, 4, 2, 6, 3, 4];

fn main_job(forecast: &[u32]) -> JobInput<'_> {
    let overrides = Overrides {
        chunks: &[],
        layers: &[],
        bytes: &[],
    };
    JobInput {
        programme: Programme {
            chunks: 3,
            span: 2,
            delay: 2,
            limit: 2,
        },
        sizes: &[3, 1],
        overrides,
        forecast,
    }
}

fn safety_job(forecast: &[u32]) -> JobInput<'_> {
    let overrides = Overrides {
        chunks: &[3, 5],
        layers: &[1, 1],
        bytes: &[2, 3],
    };
    JobInput {
        programme: Programme {
            chunks: 6,
            span: 1,
            delay: 1,
            limit: 2,
        },
        sizes: &[1, 1],
        overrides,
        forecast,
    }
}

fn job_of(film: Film, forecast: &[u32]) -> JobInput<'_> {
    match film {
        Film::Main => main_job(forecast),
        Film::Safety => safety_job(forecast),
    }
}

// A list with its marks on the link's forecast.
fn put(
    rt: &impl Print,
    call: Call,
    film: Film,
    forecast: &mut [u32; 6],
    list: &FetchList,
) -> io::Result<()> {
    // Booking changes the forecast, which a job shares.
    let JobInput {
        programme,
        sizes,
        overrides,
        forecast: _,
    } = job_of(film, &[]);
    match call {
        Call::Check => {
            print!(rt; "checked: ")?;
            verdict_said(rt, checker::check(&job_of(film, forecast), list))
        }
        Call::Book => {
            print!(rt; "booked: ")?;
            done_said(
                rt,
                booking::book(programme, sizes, &overrides, forecast, list),
            )
        }
        Call::Release => {
            print!(rt; "released: ")?;
            done_said(
                rt,
                booking::release(programme, sizes, &overrides, forecast, &list.rows),
            )
        }
    }
}

// The film's plan on one forecast, put on the link's. The films here have plans of at most 16 rows.
fn act(
    rt: &impl Print,
    call: Call,
    film: Film,
    planned: &[u32; 6],
    forecast: &mut [u32; 6],
) -> io::Result<()> {
    let mut marks = [0u8; 6];
    let mut slots = [0u16; 16];
    let mut chunks = [0u16; 16];
    let mut layers = [0u8; 16];
    let mut bytes = [0u32; 16];
    let mut lent = LentList {
        marks: &mut marks,
        slots: &mut slots,
        chunks: &mut chunks,
        layers: &mut layers,
        bytes: &mut bytes,
    };
    let job = job_of(film, planned);
    let n = planner::plan(&job, &mut lent).map_or(0, |plan| plan.rows);
    print!(rt; "{} of {n} rows ", name(film))?;
    let rows = Rows {
        slots: prefix(&slots, n),
        chunks: prefix(&chunks, n),
        layers: prefix(&layers, n),
        bytes: prefix(&bytes, n),
    };
    let list = FetchList {
        marks: prefix(&marks, job.programme.chunks as usize),
        rows,
    };
    put(rt, call, film, forecast, &list)?;
    forecast_said(rt, forecast)
}

pub(crate) fn together(rt: &impl Print) -> io::Result<()> {
    let mut forecast = BEFORE;
    act(rt, Call::Check, Film::Main, &BEFORE, &mut forecast)?;
    act(rt, Call::Book, Film::Main, &BEFORE, &mut forecast)?;
    act(rt, Call::Check, Film::Main, &BEFORE, &mut forecast)?;
    let rest = forecast;
    act(rt, Call::Check, Film::Safety, &rest, &mut forecast)?;
    act(rt, Call::Book, Film::Safety, &rest, &mut forecast)?;
    act(rt, Call::Check, Film::Safety, &rest, &mut forecast)?;
    act(rt, Call::Book, Film::Main, &BEFORE, &mut forecast)?;
    act(rt, Call::Release, Film::Main, &BEFORE, &mut forecast)?;
    act(rt, Call::Release, Film::Safety, &rest, &mut forecast)
}

pub(crate) fn other_way_round(rt: &impl Print) -> io::Result<()> {
    let mut forecast = BEFORE;
    let rest = [1u32, 0, 2, 2, 3, 4];
    println!(rt; "the other way round")?;
    act(rt, Call::Book, Film::Safety, &rest, &mut forecast)?;
    act(rt, Call::Book, Film::Main, &BEFORE, &mut forecast)?;
    act(rt, Call::Release, Film::Safety, &rest, &mut forecast)?;
    act(rt, Call::Release, Film::Main, &BEFORE, &mut forecast)
}
