// A job file, printed by each of the four programs that read one.
use core_prefix::prefix;
use std::io;
use std::rt::Files;

fn plan(rt: &impl Print, job: &[u8]) -> io::Result<()> {
    let mut out = [b'#'; programs::PLAN_BYTES];
    let n = programs::print_plan(job, &mut out);
    rt.write_all(prefix(&out, n))
}

fn report(rt: &impl Print, job: &[u8]) -> io::Result<()> {
    let mut out = [b'#'; programs::REPORT_BYTES];
    let n = programs::print_report(job, &mut out);
    rt.write_all(prefix(&out, n))
}

fn reasons(rt: &impl Print, job: &[u8]) -> io::Result<()> {
    let mut out = [b'#'; programs::REASONS_BYTES];
    let n = programs::print_reasons(job, &mut out);
    rt.write_all(prefix(&out, n))
}

fn convert(rt: &impl Print, job: &[u8]) -> io::Result<()> {
    let mut out = [b'#'; programs::CONVERTED_BYTES];
    let n = programs::print_converted(job, &mut out);
    rt.write_all(prefix(&out, n))
}

fn print_each(rt: &impl Print, job: &[u8]) -> io::Result<()> {
    println!(rt; "plan")?;
    plan(rt, job)?;
    println!(rt; "report")?;
    report(rt, job)?;
    println!(rt; "reasons")?;
    reasons(rt, job)?;
    println!(rt; "convert")?;
    convert(rt, job)
}

// The bytes of a case file, one more than a file may have at most. A file that can't be opened is
// read as empty.
fn case(rt: &(impl Files + Print), path: &str) -> io::Result<()> {
    println!(rt; "{path}")?;
    let mut file = [0u8; programs::READ_BYTES];
    let n = core_input::read_file(rt, path.as_bytes(), &mut file)?;
    print_each(rt, prefix(&file, n))
}

pub(crate) fn all_cases(rt: &(impl Files + Print)) -> io::Result<()> {
    case(rt, "job_a")?;
    case(rt, "job_uneven")?;
    case(rt, "job_mixed")?;
    case(rt, "job_501")?;
    case(rt, "job_short")?;
    case(rt, "job_long")?;
    case(rt, "job_missing")
}
