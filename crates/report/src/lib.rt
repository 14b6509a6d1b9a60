// The report: document 01's lines for a job and its plan, as text in a lent buffer. One pass over
// the rows fills a table of the bytes of each layer of each chunk; every number of the lines is
// read from it or is a sum over rows.
#![tactic(auto)]

use fetch::LentList;
use job::{CHUNKS, JobInput, Programme, ROWS, SIZES, SizeTable};
use refusals::Refusal;

mod lines;
mod table;

ghost use Rattle.std.specs.Prelude.{◌≡◌, ◌∷◌, ◌+◌, ◌≤◌, length, replicate};
ghost use Rattle.theory_basics.specs.Lists.{up_to};
ghost use Rattle.job.specs.Handed.{handed};
ghost use Rattle.theory_basics.specs.Text.{ascii, digits, line, text};
ghost use Rattle.report.specs.Answer.{Answered, ReportPromise};
ghost use Rattle.core_text.specs.lemmas.Places.{Put};
ghost use Rattle.report.specs.lemmas.Tables.{SizesIn, Tabled, chunk_line_by, count_by, lines_by};

// A line for each chunk: number, layers carried, bytes carried.
fn chunk_lines(
    out: &mut [u8],
    at: usize,
    sizes: &SizeTable,
    depth: usize,
    table: &[u64; SIZES],
    count: u16,
) -> usize
    requires { (depth ≤ 4)
        × (count ≤ 500)
        × (at + length (text (up_to (λ k. chunk_line_by sizes.now table.now depth (k + 1)) count)) ≤ length out.old)
        × SizesIn sizes.now }
    ensures { Put out.old at
        (text (up_to (λ k. chunk_line_by sizes.now table.now depth (k + 1)) count))
        out.new result }
{
    let mut next = at;
    for k in 0..count {
        let i = k + 1;
        let chunk = table::chunk_of(sizes, depth, table, i);
        next = lines::chunk_line(out, next, i as u64, chunk.layers, chunk.bytes);
    }
    next
}

// The count of each layer after a space.
fn layer_counts(
    out: &mut [u8],
    at: usize,
    sizes: &SizeTable,
    depth: usize,
    table: &[u64; SIZES],
    count: u16,
) -> usize
    requires { (depth ≤ 4)
        × (count ≤ 500)
        × (at + length (text (up_to (λ n. 32 ∷ digits (count_by sizes.now table.now count n)) depth)) ≤ length
        out.old) }
    ensures { Put out.old at
        (text (up_to (λ n. 32 ∷ digits (count_by sizes.now table.now count n)) depth))
        out.new result }
{
    let mut next = at;
    for n in 0..depth {
        let carry = table::layer_count(sizes, table, count, n);
        next = lines::put_next(out, next, carry);
    }
    next
}

// The line `layers`: the counts of the job's layers.
fn layers_line(
    out: &mut [u8],
    at: usize,
    sizes: &SizeTable,
    depth: usize,
    table: &[u64; SIZES],
    count: u16,
) -> usize
    requires { (depth ≤ 4)
        × (count ≤ 500)
        × (at + length (line (ascii "layers") (up_to (λ n. digits (count_by sizes.now table.now count n)) depth))
        ≤ length out.old) }
    ensures { Put out.old at
        (line (ascii "layers") (up_to (λ n. digits (count_by sizes.now table.now count n)) depth))
        out.new result }
{
    records::put(out, at, b"layers");
    let from = at + 6;
    let end = layer_counts(out, from, sizes, depth, table, count);
    lines::put_end(out, end)
}

// The lines, by the table and the sums.
fn put_lines(
    p: Programme,
    sizes: &SizeTable,
    depth: usize,
    table: &[u64; SIZES],
    spent: u64,
    left: u64,
    out: &mut [u8],
) -> usize
    requires { (depth ≤ 4)
        × (1 ≤ p.chunks)
        × (p.chunks ≤ 500)
        × (1 ≤ p.span)
        × (length (lines_by p sizes.now depth table.now spent left) ≤ length out.old)
        × SizesIn sizes.now }
    ensures { Put out.old 0 (lines_by p sizes.now depth table.now spent left)
        out.new result }
{
    let count = p.chunks;
    let film = p.chunks as u64 * p.span as u64;
    let last = job::last_due(p) as u64;
    let held = job::held_most(p) as u64;
    let switch = table::switch_sum(sizes, depth, table, count);
    let chunks = lines::slots_line(out, 0, last, count as u64, held);
    let layers = chunk_lines(out, chunks, sizes, depth, table, count);
    let bytes = layers_line(out, layers, sizes, depth, table, count);
    let end = lines::bytes_line(out, bytes, spent, left);
    lines::switch_lines(out, end, switch, film)
}

// The text over the front of the buffer, if it fits.
fn copy_out(text: &[u8], out: &mut [u8]) -> Result<usize, Refusal>
    ensures { Answered text.now out.old result out.new }
{
    if out.len() < text.len() {
        Err(Refusal::ShortBuffer)
    } else {
        records::put(out, 0, text);
        Ok(text.len())
    }
}

// The lines, made in a local buffer that holds any report, over the front of the lent one, if they
// fit.
fn write_lines(
    p: Programme,
    sizes: &SizeTable,
    depth: usize,
    table: &[u64; SIZES],
    spent: u64,
    left: u64,
    out: &mut [u8],
) -> Result<usize, Refusal>
    requires { (depth ≤ 4)
        × (1 ≤ p.chunks)
        × (p.chunks ≤ 500)
        × (1 ≤ p.span)
        × (length (lines_by p sizes.now depth table.now spent left) ≤ 7633)
        × SizesIn sizes.now }
    ensures { Answered (lines_by p sizes.now depth table.now spent left)
        out.old result out.new }
{
    let mut text = [0u8; 7633];
    let n = put_lines(p, sizes, depth, table, spent, left, &mut text);
    copy_out(&text[..n], out)
}

// The plan's rows, made into local slices with room for any plan, so that the planner refuses by
// the job alone. Their bytes go into the table; the answer is the sum of them, or that refusal.
fn plan_table(job: &JobInput, table: &mut [u64; SIZES]) -> Result<u64, Refusal>
    requires { table.old ≡ replicate 2000 0 }
    ensures { Tabled (handed job.now) table.new result }
{
    let mut marks = [0u8; CHUNKS];
    let mut slots = [0u16; ROWS];
    let mut chunks = [0u16; ROWS];
    let mut layers = [0u8; ROWS];
    let mut bytes = [0u32; ROWS];
    let mut out = LentList {
        marks: &mut marks,
        slots: &mut slots,
        chunks: &mut chunks,
        layers: &mut layers,
        bytes: &mut bytes,
    };
    let n = planner::plan(job, &mut out)?.rows;
    let LentList {
        marks: _,
        slots,
        chunks,
        layers,
        bytes,
    } = out;
    let each = &bytes[..n];
    table::add_rows(&slots[..n], &chunks[..n], &layers[..n], each, table);
    Ok(table::sum_of(each))
}

// The report of a job's plan. Refused: 5, 6, 18, 7 by the job, then 11 exactly if out is shorter
// than the text.
pub fn report(job: &JobInput, out: &mut [u8]) -> Result<usize, Refusal>
    ensures { ReportPromise (handed job.now) out.old result out.new }
{
    let p = job.programme;
    let mut table = [0u64; SIZES];
    let spent = plan_table(job, &mut table)?;
    let left = table::sum_of(job.forecast).saturating_sub(spent);
    let unset = p.chunks as u32;
    let mut stored = [unset; SIZES];
    core_sizes::fill_sizes(job, &mut stored);
    write_lines(p, &stored, job.sizes.len(), &table, spent, left, out)
}
