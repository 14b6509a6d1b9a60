// The case files: r.. are job files.
use core_prefix::prefix;
use job::{JobInput, OVERRIDES, Overrides, SLOTS};
use jobrecords::LentJob;
use refusals::Refusal;
use std::io;
use std::rt::Files;

pub(crate) fn refused(rt: &impl Print, refusal: Refusal) -> io::Result<()> {
    println!(rt; "refused {}", refusal.number())
}

fn print_report(rt: &impl Print, job: &JobInput) -> io::Result<()> {
    let mut out = [0u8; 8192];
    match report::report(job, &mut out) {
        Ok(n) => rt.write_all(prefix(&out, n)),
        Err(refusal) => refused(rt, refusal),
    }
}

fn report_of(rt: &impl Print, file: &[u8]) -> io::Result<()> {
    let mut sizes = [0u32; 4];
    let mut chunks = [0u16; OVERRIDES];
    let mut layers = [0u8; OVERRIDES];
    let mut bytes = [0u32; OVERRIDES];
    let mut forecast = [0u32; SLOTS];
    let mut lent = LentJob {
        sizes: &mut sizes,
        chunks: &mut chunks,
        layers: &mut layers,
        bytes: &mut bytes,
        forecast: &mut forecast,
    };
    match jobfile::read_job(file, &mut lent) {
        Ok(read) => {
            let n = read.overrides;
            let overrides = Overrides {
                chunks: prefix(&chunks, n),
                layers: prefix(&layers, n),
                bytes: prefix(&bytes, n),
            };
            let job = JobInput {
                programme: read.programme,
                sizes: prefix(&sizes, read.layers),
                overrides,
                forecast: prefix(&forecast, read.slots),
            };
            print_report(rt, &job)
        }
        Err(refusal) => refused(rt, refusal),
    }
}

// A file that can't be opened is read as empty.
fn case(rt: &(impl Files + Print), i: u8) -> io::Result<()> {
    let path = [b'r', b'0' + i / 10 % 10, b'0' + i % 10];
    rt.write_all(&path)?;
    println!(rt;)?;
    let mut file = [0u8; 1024];
    let n = core_input::read_file(rt, &path, &mut file)?;
    report_of(rt, prefix(&file, n))
}

pub(crate) fn reports(rt: &(impl Files + Print)) -> io::Result<()> {
    for i in 0..19 {
        case(rt, i)?;
    }
    Ok(())
}
