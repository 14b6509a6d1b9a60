// Single cases: each line says what it is, where it is small the bases that the plan with each s
// carries, and the answer.
use crate::plans;
use crate::plans::equal_film;
use core_prefix::prefix;
use job::Overrides;
use std::io;
use wait::Film;

fn ask(rt: &impl Print, text: &str, film: &Film) -> io::Result<()> {
    print!(rt; "{text}: ")?;
    tell(rt, film)
}

fn tell(rt: &impl Print, film: &Film) -> io::Result<()> {
    match wait::wait(film) {
        Ok(s) => println!(rt; "delay {s}"),
        Err(refusal) => println!(rt; "refused {}", refusal.number()),
    }
}

fn tell_bases(rt: &impl Print, film: &Film) -> io::Result<()> {
    for s in 1..9 {
        if !plans::reaches(film, s) {
            return Ok(());
        }
        print!(rt; " {}", plans::bases(film, s))?;
    }
    Ok(())
}

// Each s, and the answer.
fn show(rt: &impl Print, text: &str, film: Film) -> io::Result<()> {
    print!(rt; "{text}, bases")?;
    tell_bases(rt, &film)?;
    print!(rt; ": ")?;
    tell(rt, &film)
}

// One chunk of one slot and one byte, nothing held.
fn one(rt: &impl Print, text: &str, forecast: &[u32]) -> io::Result<()> {
    show(rt, text, equal_film(1, 1, 0, &[1], forecast))
}

pub(crate) fn small(rt: &impl Print) -> io::Result<()> {
    one(rt, "a longer wait is worse", &[1, 0])?;
    one(rt, "the last s", &[0, 0, 1])?;
    one(rt, "no s works", &[0, 0])?;
    show(rt, "H = 0", equal_film(2, 1, 0, &[2], &[2, 1, 2, 2]))
}

pub(crate) fn binding(rt: &impl Print) -> io::Result<()> {
    let worse = equal_film(2, 1, 1, &[2], &[1, 2, 1, 0, 2, 2]);
    let job_a = equal_film(3, 2, 2, &[2, 1], &[3, 0, 1, 0, 2, 0]);
    let short = equal_film(3, 2, 9, &[1], &[1, 1, 1, 1]);
    show(rt, "worse, then better", worse)?;
    show(rt, "job A without s", job_a)?;
    show(rt, "too short for s = 1", short)
}

// So many layers and slots of one byte.
fn of_lengths(
    rt: &impl Print,
    text: &str,
    chunks: u16,
    span: u16,
    layers: usize,
    slots: usize,
) -> io::Result<()> {
    let ones = [1; 5];
    let film = equal_film(
        chunks,
        span,
        65535,
        prefix(&ones, layers),
        prefix(&ones, slots),
    );
    ask(rt, text, &film)
}

pub(crate) fn programmes(rt: &impl Print) -> io::Result<()> {
    of_lengths(rt, "no chunk", 0, 1, 1, 1)?;
    of_lengths(rt, "501 chunks", 501, 1, 1, 1)?;
    of_lengths(rt, "no slot of film", 1, 0, 1, 1)?;
    of_lengths(rt, "61 slots of film", 1, 61, 1, 1)?;
    of_lengths(rt, "500 chunks of 60 slots: not 5", 500, 60, 1, 1)
}

pub(crate) fn lengths(rt: &impl Print) -> io::Result<()> {
    of_lengths(rt, "no layer", 1, 1, 0, 1)?;
    of_lengths(rt, "a fifth layer", 1, 1, 5, 1)?;
    of_lengths(rt, "no slot", 1, 1, 1, 0)?;
    of_lengths(rt, "5 before 6 and 7", 501, 1, 0, 0)?;
    of_lengths(rt, "6 before 7", 1, 1, 0, 0)
}

// A second layer of so many bytes, and a slot of so many.
fn of_bytes(rt: &impl Print, text: &str, span: u16, size: u32, bytes: u32) -> io::Result<()> {
    ask(rt, text, &equal_film(500, span, 0, &[1, size], &[bytes]))
}

pub(crate) fn ranges(rt: &impl Print) -> io::Result<()> {
    of_bytes(rt, "size 0", 1, 0, 1)?;
    of_bytes(rt, "a size too large", 1, 16777217, 1)?;
    of_bytes(rt, "bytes too large", 1, 1, 16777217)?;
    of_bytes(rt, "7 before 16", 60, 1, 16777217)
}

// An SZ, handed whole or without its size.
#[derive(Clone, Copy)]
struct Override {
    chunk: u16,
    layer: u8,
    size: u32,
    whole: bool,
}

fn sz(chunk: u16, layer: u8, size: u32) -> Override {
    Override {
        chunk,
        layer,
        size,
        whole: true,
    }
}

// A film of one layer of 2 bytes and an SZ, of two chunks and so many slots.
fn uneven(rt: &impl Print, text: &str, sz: Override, slots: usize) -> io::Result<()> {
    let size = [sz.size];
    let overrides = Overrides {
        chunks: &[sz.chunk],
        layers: &[sz.layer],
        bytes: prefix(&size, usize::from(sz.whole)),
    };
    let film = Film {
        chunks: 2,
        span: 1,
        limit: 2,
        sizes: &[2],
        overrides,
        forecast: prefix(&[1, 1, 1, 2], slots),
    };
    ask(rt, text, &film)
}

pub(crate) fn uneven_films(rt: &impl Print) -> io::Result<()> {
    uneven(rt, "chunk 2 of 1 byte", sz(2, 0, 1), 4)?;
    uneven(rt, "chunk 2 of 3 bytes", sz(2, 0, 3), 4)?;
    uneven(rt, "chunk 2 of 4 bytes", sz(2, 0, 4), 4)?;
    uneven(rt, "an SZ for chunk 1", sz(1, 0, 1), 4)?;
    uneven(rt, "an SZ for chunk 3", sz(3, 0, 1), 4)?;
    uneven(rt, "an SZ for layer 1", sz(2, 1, 1), 4)?;
    uneven(rt, "the layer's own size", sz(2, 0, 2), 4)?;
    let cut = Override {
        whole: false,
        ..sz(2, 0, 1)
    };
    uneven(rt, "an SZ not whole", cut, 4)?;
    uneven(rt, "18 before 7", sz(2, 0, 2), 0)
}

pub(crate) fn large(rt: &impl Print) -> io::Result<()> {
    let mut forecast = [0u32; 3601];
    ask(rt, "3,601 slots", &equal_film(1, 1, 0, &[1], &forecast))?;
    ask(
        rt,
        "3,600 slots of nothing",
        &equal_film(500, 1, 499, &[1], prefix(&forecast, 3600)),
    )?;
    forecast[3100..].fill(1);
    ask(
        rt,
        "the last s of 500 chunks",
        &equal_film(500, 1, 0, &[1], prefix(&forecast, 3600)),
    )?;
    forecast[1..].fill(16777216);
    ask(
        rt,
        "sums above 32 bits",
        &equal_film(300, 1, 0, &[16777216], prefix(&forecast, 3600)),
    )
}
