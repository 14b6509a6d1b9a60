// The writer.
use crate::print::refused;
use refusals::Refusal;
use std::io;

fn answered(rt: &impl Print, answer: Result<usize, Refusal>) -> io::Result<()> {
    match answer {
        Ok(n) => print!(rt; "written {n}"),
        Err(refusal) => refused(rt, refusal),
    }
}

// How many bytes the forecast has when it is written.
pub(crate) fn written(rt: &impl Print, forecast: &[u32]) -> io::Result<()> {
    let mut out = [0u8; 65537];
    answered(rt, trace::write_trace(forecast, &mut out))
}

// The forecast goes into room for so many bytes, after which all ten bytes show.
fn write(rt: &impl Print, forecast: &[u32], places: usize) -> io::Result<()> {
    let mut out = [b'.'; 10];
    answered(rt, trace::write_trace(forecast, &mut out[..places.min(10)]))?;
    print!(rt; ", then ")?;
    rt.write_all(&out)?;
    println!(rt;)
}

pub(crate) fn forecasts(rt: &impl Print) -> io::Result<()> {
    let forecast = [3000, 0, 1500];
    write(rt, &forecast, 10)?;
    write(rt, &forecast, 9)?;
    print!(rt; "no room for a byte: ")?;
    write(rt, &forecast, 8)?;
    print!(rt; "no slot: ")?;
    write(rt, &[], 10)?;
    print!(rt; "no multiple of 1,500: ")?;
    write(rt, &[1500, 1499], 10)?;
    print!(rt; "above 16,777,216: ")?;
    write(rt, &[16777500], 10)?;
    print!(rt; "15 before 11: ")?;
    write(rt, &[1], 0)?;
    print!(rt; "11,184 lines, no room: ")?;
    write(rt, &[16776000], 10)
}

// Forecasts of 3,600 slots, the last with a line, and of one more, which can't be written.
pub(crate) fn slots(rt: &impl Print) -> io::Result<()> {
    let mut forecast = [0u32; 3601];
    forecast[3599] = 1500;
    forecast[3600] = 1;
    write(rt, &forecast[..3600], 10)?;
    print!(rt; "3,601 slots, 7 before 15: ")?;
    write(rt, &forecast, 10)
}
