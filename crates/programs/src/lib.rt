// What each program prints for the files that it reads, into a buffer that holds it whatever the
// files are. A program reads, calls its function here and writes; what is read and written no
// contract can say.
#![tactic(auto)]

ghost use Rattle.std.specs.Prelude.{[], ◌∷◌, ◌++◌, ◌≤◌, length};
ghost use Rattle.theory_basics.specs.Text.{digits};
ghost use Rattle.refusals.specs.Numbers.{by_number, number_of};
ghost use Rattle.programs.specs.Calls.{Prints, PrintConvertedPromise, PrintPlanPromise};
ghost use Rattle.programs.specs.Calls.{PrintReasonsPromise, PrintReportPromise};
ghost use Rattle.programs.specs.Calls.{PrintVerdictPromise, two_files};
ghost use Rattle.programs.specs.Printed.{refused_text};
ghost use Rattle.programs.specs.lemmas.Answered.{PrintsAnswer};

use refusals::Refusal;

// What a program reads of a file: one byte more than a file may have, so that a longer one is 9.
pub const READ_BYTES: usize = 65537;

// What each program prints at most, by theorem: whole_files' lemmas.Plans.plan_file_fits, report's
// Answer.plan_report_fits, theory_reasons' text_fits, jobfile's file_short; a word and three
// digits.
pub const PLAN_BYTES: usize = 64091;

pub const VERDICT_BYTES: usize = 12;

pub const REPORT_BYTES: usize = 7633;

pub const REASONS_BYTES: usize = 94000;

pub const CONVERTED_BYTES: usize = 46800;

// A word with a space after it, a number and a line feed go to the front of a buffer: no such line
// has more than 12 bytes.
fn put_line(out: &mut [u8], word: &[u8; 8], n: u8) -> usize
    requires { 12 ≤ length out.old }
    ensures { Prints
        (word.now ++ (digits n ++ (10 ∷ []))) out.old result out.new }
{
    let at = core_text::put_field(out, 0, word, n as u64);
    core_text::put_word(out, at, b"\n")
}

// The line of a refusal.
fn put_refusal(out: &mut [u8], refusal: Refusal) -> usize
    requires { 12 ≤ length out.old }
    ensures { Prints (refused_text (number_of refusal)) out.old result out.new }
{
    put_line(out, b"refused ", refusal.number())
}

// The bytes of a text that stands in the buffer, or the refusal's line.
fn print_answer(written: Result<usize, Refusal>, out: &mut [u8]) -> usize
    requires { 12 ≤ length out.old }
    ensures { PrintsAnswer (by_number written) out.old result out.new }
{
    match written {
        Ok(n) => n,
        Err(refusal) => put_refusal(out, refusal),
    }
}

// What `film_plan` prints for its standard input, of which it reads READ_BYTES, so that a longer
// one is refused by 9.
pub fn print_plan(job: &[u8], out: &mut [u8; PLAN_BYTES]) -> usize
    ensures { PrintPlanPromise job.now out.old result out.new }
{
    let written = whole_files::plan_file(job, out);
    print_answer(written, out)
}

// What `film_verdict` prints for the files `job` and `plan`. Of each it reads READ_BYTES, and none
// of a file that can't be opened.
pub fn print_verdict(job: &[u8], plan: &[u8], out: &mut [u8; VERDICT_BYTES]) -> usize
    ensures { PrintVerdictPromise
        (two_files job.now plan.now)
        out.old result out.new }
{
    match whole_files::verdict_files(job, plan) {
        Ok(n) => put_line(out, b"verdict ", n),
        Err(refusal) => put_refusal(out, refusal),
    }
}

// What `film_report` prints for its standard input.
pub fn print_report(job: &[u8], out: &mut [u8; REPORT_BYTES]) -> usize
    ensures { PrintReportPromise job.now out.old result out.new }
{
    let written = whole_files::report_file(job, out);
    print_answer(written, out)
}

// What `film_reasons` prints for its standard input.
pub fn print_reasons(job: &[u8], out: &mut [u8; REASONS_BYTES]) -> usize
    ensures { PrintReasonsPromise job.now out.old result out.new }
{
    let written = whole_files::reasons_file(job, out);
    print_answer(written, out)
}

// What `film_convert` prints for its standard input.
pub fn print_converted(job: &[u8], out: &mut [u8; CONVERTED_BYTES]) -> usize
    ensures { PrintConvertedPromise job.now out.old result out.new }
{
    let written = whole_files::convert_file(job, out);
    print_answer(written, out)
}
