// A job file and a plan file, judged.
use core_prefix::prefix;
use std::io;
use std::rt::Files;

fn case(rt: &(impl Files + Print), job_path: &str, plan_path: &str) -> io::Result<()> {
    print!(rt; "{job_path} {plan_path} ")?;
    let mut job = [0u8; programs::READ_BYTES];
    let m = core_input::read_file(rt, job_path.as_bytes(), &mut job)?;
    let mut plan = [0u8; programs::READ_BYTES];
    let n = core_input::read_file(rt, plan_path.as_bytes(), &mut plan)?;
    let mut out = [b'#'; programs::VERDICT_BYTES];
    let count = programs::print_verdict(prefix(&job, m), prefix(&plan, n), &mut out);
    rt.write_all(prefix(&out, count))
}

pub(crate) fn all_cases(rt: &(impl Files + Print)) -> io::Result<()> {
    case(rt, "job_a", "plan_a")?;
    case(rt, "job_a", "plan_split")?;
    case(rt, "job_a", "plan_marks")?;
    case(rt, "job_uneven", "plan_a")?;
    case(rt, "job_a", "plan_short")?;
    case(rt, "job_a", "plan_long")?;
    case(rt, "job_a", "plan_missing")?;
    case(rt, "job_501", "plan_short")?;
    case(rt, "job_missing", "plan_a")
}
