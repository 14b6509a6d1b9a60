// The reader: case files t.., then slot counts and rooms.
use crate::print::refused;
use crate::writing::written;
use core_prefix::prefix;
use std::io;
use std::rt::Files;

// The bytes of a case file go to the start of file, at most as many as that has. A file that can't
// be opened is read as empty.
fn read_case(rt: &(impl Files + Print), i: u8, file: &mut [u8; 65537]) -> io::Result<usize> {
    let path = [b't', b'0' + i / 10 % 10, b'0' + i % 10];
    rt.write_all(&path)?;
    print!(rt; " ")?;
    core_input::read_file(rt, &path, file)
}

// Three slots of a forecast, and the one past what was asked for.
fn trace_file(rt: &impl Print, file: &[u8]) -> io::Result<()> {
    let mut forecast = [9u32; 4];
    match trace::read_trace(file, 3, &mut forecast) {
        Ok(n) => written(rt, prefix(&forecast, n))?,
        Err(refusal) => refused(rt, refusal)?,
    }
    let [a, b, c, past] = forecast;
    println!(rt; ", then {a} {b} {c} {past}")
}

fn trace_case(rt: &(impl Files + Print), i: u8) -> io::Result<()> {
    let mut file = [0u8; 65537];
    let n = read_case(rt, i, &mut file)?;
    trace_file(rt, prefix(&file, n))
}

pub(crate) fn trace_files(rt: &(impl Files + Print)) -> io::Result<()> {
    for i in 0..39 {
        trace_case(rt, i)?;
    }
    Ok(())
}

// A trace is read for so many slots into room for so many, after which the first two slots and the
// last two show.
fn read(rt: &impl Print, file: &[u8], slots: usize, places: usize) -> io::Result<()> {
    let mut forecast = [9u32; 3601];
    match trace::read_trace(file, slots, &mut forecast[..places.min(3601)]) {
        Ok(n) => print!(rt; "slots {n}")?,
        Err(refusal) => refused(rt, refusal)?,
    }
    let first = forecast[0];
    let second = forecast[1];
    let before = forecast[3599];
    let last = forecast[3600];
    println!(rt; ", then {first} {second} {before} {last}")
}

pub(crate) fn slot_counts(rt: &impl Print) -> io::Result<()> {
    let file = b"0\n999\n1000\n3599999\n3600000\n";
    print!(rt; "no slot: ")?;
    read(rt, file, 0, 3601)?;
    read(rt, file, 1, 3601)?;
    read(rt, file, 3600, 3601)?;
    print!(rt; "3,601 slots: ")?;
    read(rt, file, 3601, 3601)?;
    print!(rt; "7 before 14: ")?;
    read(rt, b"x", 0, 3601)?;
    print!(rt; "7 before 11: ")?;
    read(rt, file, 3601, 0)
}

// The trace with too many lines in slot 1, read into room for so many slots.
fn too_many(rt: &(impl Files + Print), places: usize) -> io::Result<()> {
    let mut file = [0u8; 65537];
    let n = read_case(rt, 29, &mut file)?;
    read(rt, prefix(&file, n), 1, places)
}

pub(crate) fn rooms(rt: &(impl Files + Print)) -> io::Result<()> {
    let file = b"0\n999\n1000\n";
    read(rt, file, 2, 2)?;
    print!(rt; "no room for a slot: ")?;
    read(rt, file, 2, 1)?;
    print!(rt; "14 before 11: ")?;
    read(rt, b"0\n1", 2, 0)?;
    print!(rt; "15 before 11: ")?;
    too_many(rt, 0)
}
