// The link meter: refusals 10, 12 and 13, the last ten samples, the forecast.
use crate::print::refused;
use meter::Meter;
use std::io;

// The meter after the sample; the refusal, if there is one, is printed, and the meter stays.
fn take(rt: &impl Print, m: Meter, slot: u16, bytes: u32) -> io::Result<Meter> {
    match meter::take(m, slot, bytes) {
        Ok(taken) => Ok(taken),
        Err(refusal) => {
            refused(rt, refusal)?;
            Ok(m)
        }
    }
}

fn forecast(rt: &impl Print, m: Meter) -> io::Result<()> {
    match meter::forecast(m) {
        Ok(bytes) => println!(rt; "forecast {bytes}"),
        Err(refusal) => refused(rt, refusal),
    }
}

pub(crate) fn samples(rt: &impl Print) -> io::Result<()> {
    print!(rt; "slot 0: ")?;
    let m = take(rt, meter::new(), 0, 1)?;
    print!(rt; "16,777,217 bytes: ")?;
    let m = take(rt, m, 1, 16777217)?;
    let m = take(rt, m, 5, 16777216)?;
    print!(rt; "the same slot: ")?;
    let m = take(rt, m, 5, 1)?;
    print!(rt; "10 before 13: ")?;
    let m = take(rt, m, 5, 16777217)?;
    forecast(rt, m)?;
    forecast(rt, take(rt, m, 6, 1)?)
}

// A meter that no call makes: too many samples, or slots that don't rise.
fn odd(kept: u8, slot: u16) -> Meter {
    Meter {
        slots: [1, slot, 3, 4, 5, 6, 7, 8, 9, 10],
        bytes: [1; 10],
        kept,
    }
}

pub(crate) fn forecasts(rt: &impl Print) -> io::Result<()> {
    print!(rt; "no sample: ")?;
    forecast(rt, meter::new())?;
    let m = take(rt, take(rt, meter::new(), 1, 6)?, 2, 3)?;
    forecast(rt, m)?;
    forecast(rt, take(rt, m, 3, 0)?)?;
    odd_forecasts(rt)?;
    full_forecasts(rt)
}

fn odd_forecasts(rt: &impl Print) -> io::Result<()> {
    print!(rt; "eleven kept: ")?;
    forecast(rt, odd(11, 2))?;
    print!(rt; "slots not rising: ")?;
    forecast(rt, odd(2, 1))?;
    print!(rt; "kept out of order: ")?;
    take(rt, odd(2, 1), 3, 1)?;
    Ok(())
}

fn full_forecasts(rt: &impl Print) -> io::Result<()> {
    let full = take(rt, odd(10, 2), 11, 1000)?;
    forecast(rt, odd(10, 2))?;
    forecast(rt, full)?;
    println!(rt; "oldest slot {}", full.slots[0])
}

// Ten samples of the same bytes.
fn equal(bytes: u32) -> Meter {
    Meter {
        slots: [1, 2, 3, 4, 5, 6, 7, 8, 9, 10],
        bytes: [bytes; 10],
        kept: 10,
    }
}

// Never above the mean, and at most one below its whole part.
pub(crate) fn means(rt: &impl Print) -> io::Result<()> {
    forecast(rt, take(rt, meter::new(), 1, 9)?)?;
    forecast(
        rt,
        take(rt, take(rt, meter::new(), 1, 15000000)?, 2, 10000100)?,
    )?;
    forecast(rt, equal(16777216))?;
    forecast(rt, equal(16777215))?;
    forecast(rt, equal(3))
}
