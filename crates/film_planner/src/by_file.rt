// The programs' work on whole files: plan, verdict, report, reasons, convert.
ghost use Rattle.std.specs.Prelude.{◌≡◌};
ghost use Rattle.core_ffi.specs.Programs.{ConvertFileReturned, PlanFileReturned, ReasonsFileReturned};
ghost use Rattle.core_ffi.specs.Programs.{ReportFileReturned, verdict_files_answer};

// `whole_files::plan_file` for C.
#[unsafe(no_mangle)]
pub extern "C" fn film_plan_file(job: &[u8], out: &mut [u8]) -> u64
    ensures { PlanFileReturned job.now out.old result out.new }
{
    core_ffi::number(whole_files::plan_file(job, out))
}

// `whole_files::verdict_files` for C.
#[unsafe(no_mangle)]
pub extern "C" fn film_verdict_files(job: &[u8], plan: &[u8]) -> u64
    ensures { result ≡ verdict_files_answer job.now plan.now }
{
    core_ffi::number(whole_files::verdict_files(job, plan).map(usize::from))
}

// `whole_files::report_file` for C.
#[unsafe(no_mangle)]
pub extern "C" fn film_report_file(job: &[u8], out: &mut [u8]) -> u64
    ensures { ReportFileReturned job.now out.old result out.new }
{
    core_ffi::number(whole_files::report_file(job, out))
}

// `whole_files::reasons_file` for C.
#[unsafe(no_mangle)]
pub extern "C" fn film_reasons_file(job: &[u8], out: &mut [u8]) -> u64
    ensures { ReasonsFileReturned job.now out.old result out.new }
{
    core_ffi::number(whole_files::reasons_file(job, out))
}

// `whole_files::convert_file` for C.
#[unsafe(no_mangle)]
pub extern "C" fn film_convert_file(job: &[u8], out: &mut [u8]) -> u64
    ensures { ConvertFileReturned job.now out.old result out.new }
{
    core_ffi::number(whole_files::convert_file(job, out))
}
