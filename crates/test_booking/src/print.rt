// What the calls answer, to standard output.
use refusals::Refusal;
use std::io;

fn refusal_said(rt: &impl Print, refusal: Refusal) -> io::Result<()> {
    let number = refusal.number();
    print!(rt; "refused {number}")
}

pub(crate) fn verdict_said(rt: &impl Print, checked: Result<u8, Refusal>) -> io::Result<()> {
    match checked {
        Ok(verdict) => print!(rt; "verdict {verdict}"),
        Err(refusal) => refusal_said(rt, refusal),
    }
}

pub(crate) fn done_said(rt: &impl Print, answer: Result<(), Refusal>) -> io::Result<()> {
    match answer {
        Ok(()) => print!(rt; "done"),
        Err(refusal) => refusal_said(rt, refusal),
    }
}

// The forecast after a call.
pub(crate) fn forecast_said(rt: &impl Print, forecast: &[u32; 6]) -> io::Result<()> {
    print!(rt; ", then")?;
    for bytes in forecast {
        print!(rt; " {bytes}")?;
    }
    println!(rt;)
}
