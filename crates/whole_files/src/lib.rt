// The programs' work for callers who have files: whole files in, the plan file, the verdict, the
// report, the reasons or the job file in one sequence out. A refusal comes from the files, then 11
// by the lent buffer, which it leaves as it is.
#![tactic(auto)]

ghost use Rattle.std.specs.Prelude.{◌≡◌};
ghost use Rattle.refusals.specs.Numbers.{by_number};
ghost use Rattle.job.specs.Handed.{handed};
ghost use Rattle.whole_files.specs.Calls.{ConvertFilePromise, PlanFilePromise, ReasonsFilePromise};
ghost use Rattle.whole_files.specs.Calls.{ReportFilePromise, verdict_answer};
ghost use Rattle.whole_files.specs.Calls.{PlanOfJob, verdict_on_file};

use job::JobInput;
use refusals::Refusal;
use rooms::{JobRoom, ListRoom, MixedRoom};

mod rooms;

// The plan file of a job.
fn plan_job(job: &JobInput, out: &mut [u8]) -> Result<usize, Refusal>
    ensures { PlanOfJob (handed job.now) out.old result out.new }
{
    let mut room = ListRoom::cleared();
    let rows = room.plan(job)?;
    planfile::write_plan(job, &room.list(job.programme.chunks, rows), out)
}

// The verdict on a plan file of a job.
fn verdict_job(job: &JobInput, plan: &[u8]) -> Result<u8, Refusal>
    ensures { by_number result ≡ verdict_on_file (handed job.now) plan.now }
{
    let mut room = ListRoom::cleared();
    let rows = room.read(job, plan)?;
    checker::check(job, &room.list(job.programme.chunks, rows))
}

// The plan file of the job of a file, into a lent buffer. Refused: the job file's number, then 11
// where the buffer is shorter than the plan file. On a refusal the buffer stays as it is.
pub fn plan_file(job: &[u8], out: &mut [u8]) -> Result<usize, Refusal>
    ensures { PlanFilePromise job.now out.old result out.new }
{
    let mut room = JobRoom::cleared();
    let read = room.read(job)?;
    plan_job(&room.job(read), out)
}

// The verdict on a plan file for the job of a job file. Refused: the job file's number, then the
// plan file's.
pub fn verdict_files(job: &[u8], plan: &[u8]) -> Result<u8, Refusal>
    ensures { by_number result ≡ verdict_answer job.now plan.now }
{
    let mut room = JobRoom::cleared();
    let read = room.read(job)?;
    verdict_job(&room.job(read), plan)
}

// The report of the job of a file, into a lent buffer. Refused as plan_file.
pub fn report_file(job: &[u8], out: &mut [u8]) -> Result<usize, Refusal>
    ensures { ReportFilePromise job.now out.old result out.new }
{
    let mut room = JobRoom::cleared();
    let read = room.read(job)?;
    report::report(&room.job(read), out)
}

// The reasons under the layers that the plan of the job of a file lacks, into a lent buffer.
// Refused as plan_file.
pub fn reasons_file(job: &[u8], out: &mut [u8]) -> Result<usize, Refusal>
    ensures { ReasonsFilePromise job.now out.old result out.new }
{
    let mut room = JobRoom::cleared();
    let read = room.read(job)?;
    reasons::reasons(&room.job(read), out)
}

// The job of a mixed file in one sequence, into a lent buffer. Refused: the mixed file's number,
// then 11. A mixed file has no SZ: to its reader an SZ is an unknown mark, 2.
pub fn convert_file(job: &[u8], out: &mut [u8]) -> Result<usize, Refusal>
    ensures { ConvertFilePromise job.now out.old result out.new }
{
    let mut room = MixedRoom::cleared();
    let read = room.read(job)?;
    jobfile::write_job(&room.job(read), out)
}
