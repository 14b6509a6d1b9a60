// Job files, document 02's request 6: a reader of files in one sequence and a writer of any job,
// into lent buffers that a refusal leaves as they are. What the reader takes is what the writer
// puts, byte for byte. The reading is crate jobrecords'.
#![tactic(auto)]

ghost use Rattle.std.specs.Prelude.{◌≡◌, ◌+◌, ◌≤◌, ◌<◌, [], map, length};
ghost use Rattle.refusals.specs.Numbers.{by_number};
ghost use Rattle.job.specs.Handed.{handed, handed_overrides};
ghost use Rattle.job.specs.Input.{WholeSizes, job_in};
ghost use Rattle.jobrecords.specs.declared.Record.TheVariants.{Pg, Ly, Sz, Bw};
ghost use Rattle.jobrecords.specs.Records.{encode};
ghost use Rattle.jobrecords.specs.Refusal.{mixed, one_sequence};
ghost use Rattle.jobrecords.specs.Reader.{buffers, JobReadPromise};
ghost use Rattle.jobrecords.specs.Handed.{lent_job, SameBuffers};
ghost use Rattle.jobfile.specs.lemmas.Puts.{Puts, records_bytes};
ghost use Rattle.jobfile.specs.Writer.{runs, layer_record, override_record, run_record, job_file};
ghost use Rattle.jobfile.specs.Writer.{JobWritePromise};
ghost use Rattle.jobfile.specs.lemmas.Runs.{run_end};

use job::{JobInput, Overrides, Programme};
use jobrecords::{LentJob, ReadJob};
use refusals::{Refusal, refuse_unless};

// Reads a job file in one sequence into the lent sizes, SZs and forecast. Refusals: 9, then record
// by record, 17 between 4 and the ranges, at EN 3, 4, 6, 18, 7; then 11 where a buffer is shorter
// than the job's sizes, SZs or slots. On a refusal every buffer stays as it is.
pub fn read_job(file: &[u8], out: &mut LentJob) -> Result<ReadJob, Refusal>
    ensures promise { JobReadPromise one_sequence file.now (lent_job out.old) (by_number result)
        (lent_job out.new) }
    ensures same { SameBuffers out.old out.new }
{
    jobrecords::read_job(true, file, out)
}

// Reads a mixed job file, which has no SZ, into the lent sizes and forecast. Refusals: 9, then
// record by record, at EN 3, 4, 6, 7; then 11 where a buffer is shorter than the job's sizes or
// slots. On a refusal both buffers stay as they are.
pub fn read_mixed_job(
    file: &[u8],
    sizes: &mut [u32],
    forecast: &mut [u32],
) -> Result<ReadJob, Refusal>
    ensures { JobReadPromise mixed file.now (buffers sizes.old [] [] [] forecast.old)
        (by_number result) (buffers sizes.new [] [] [] forecast.new) }
{
    let mut out = LentJob {
        sizes,
        chunks: &mut [],
        layers: &mut [],
        bytes: &mut [],
        forecast,
    };
    jobrecords::read_job(false, file, &mut out)
}

// Bytes go to a place of a buffer; the answer is the place after them.
fn put_bytes(out: &mut [u8], at: usize, bytes: &[u8]) -> usize
    requires { at + length bytes.now ≤ length out.old }
    ensures { Puts out.old at bytes.now out.new result }
{
    let end = at + bytes.len();
    out[at..end].copy_from_slice(bytes);
    end
}

// A PG record: its mark, then its fields.
fn put_programme(out: &mut [u8], at: usize, p: Programme) -> usize
    requires { at + 10 ≤ length out.old }
    ensures { Puts out.old at (encode (Pg p)) out.new result }
{
    let [c, chunks] = p.chunks.to_le_bytes();
    let [l, span] = p.span.to_le_bytes();
    let [s, delay] = p.delay.to_le_bytes();
    let [b, limit] = p.limit.to_le_bytes();
    let mark = b"PG";
    let record = [mark[0], mark[1], c, chunks, l, span, s, delay, b, limit];
    put_bytes(out, at, &record)
}

// An LY record.
fn put_layer(out: &mut [u8], at: usize, size: u32) -> usize
    requires { at + 6 ≤ length out.old }
    ensures { Puts out.old at (encode (Ly size)) out.new result }
{
    let [a, b, c, d] = size.to_le_bytes();
    let mark = b"LY";
    put_bytes(out, at, &[mark[0], mark[1], a, b, c, d])
}

// An SZ record.
fn put_override(out: &mut [u8], at: usize, chunk: u16, layer: u8, size: u32) -> usize
    requires { at + 9 ≤ length out.old }
    ensures { Puts out.old at (encode (Sz chunk layer size)) out.new result }
{
    let [i, j] = chunk.to_le_bytes();
    let [a, b, c, d] = size.to_le_bytes();
    let mark = b"SZ";
    put_bytes(out, at, &[mark[0], mark[1], i, j, layer, a, b, c, d])
}

// A BW record.
fn put_run(out: &mut [u8], at: usize, count: u16, bytes: u32) -> usize
    requires { at + 8 ≤ length out.old }
    ensures { Puts out.old at (encode (Bw count bytes)) out.new result }
{
    let [i, j] = count.to_le_bytes();
    let [a, b, c, d] = bytes.to_le_bytes();
    let mark = b"BW";
    put_bytes(out, at, &[mark[0], mark[1], i, j, a, b, c, d])
}

// The slot after the run that starts at a slot.
fn run_end(forecast: &[u32], from: usize) -> usize
    requires { from < length forecast.now }
    ensures { result ≡ run_end forecast.now from }
{
    let x = forecast[from];
    for end in from + 1..forecast.len() {
        if forecast[end] != x {
            return end;
        }
    }
    forecast.len()
}

// How many longest runs a forecast has: each slot but the last ends one, if the next differs.
fn count_runs(forecast: &[u32]) -> usize
    ensures { result ≡ length (runs forecast.now) }
{
    if forecast.is_empty() {
        return 0;
    }
    let mut n: usize = 1;
    for i in 0..forecast.len() - 1 {
        if forecast[i + 1] != forecast[i] {
            n += 1;
        }
    }
    n
}

// The LYs.
fn put_layers(out: &mut [u8], at: usize, sizes: &[u32]) -> usize
    requires { at + length (records_bytes (map layer_record sizes.now)) ≤ length out.old }
    ensures { Puts out.old at (records_bytes (map layer_record sizes.now)) out.new result }
{
    let mut next = at;
    for &size in sizes {
        next = put_layer(out, next, size);
    }
    next
}

// The SZs, handed whole.
fn put_overrides(out: &mut [u8], at: usize, sz: &Overrides) -> usize
    requires whole_sizes { WholeSizes sz.now.chunks.now sz.now.layers.now sz.now.bytes.now }
    requires room { at + length (records_bytes (map override_record (handed_overrides sz.now))) ≤
        length out.old }
    ensures { Puts out.old at (records_bytes (map override_record (handed_overrides sz.now)))
        out.new result }
{
    // Held by themselves, so that a turn of the loop doesn't load their places from the SZs.
    let Overrides {
        chunks,
        layers,
        bytes,
    } = *sz;
    let mut next = at;
    for i in 0..chunks.len() {
        next = put_override(out, next, chunks[i], layers[i], bytes[i]);
    }
    next
}

// One BW per longest run.
fn put_runs(out: &mut [u8], at: usize, forecast: &[u32]) -> usize
    requires room { at + length (records_bytes (map run_record (runs forecast.now))) ≤ length out.old }
    requires few_slots { length forecast.now < 65536 }
    ensures { Puts out.old at (records_bytes (map run_record (runs forecast.now))) out.new result }
{
    let mut next = at;
    let mut i: usize = 0;
    // Kept: a turn goes on by a whole run, by which no range steps.
    while i < forecast.len() {
        let end = run_end(forecast, i);
        next = put_run(out, next, (end - i) as u16, forecast[i]);
        i = end;
    }
    next
}

// The whole file of a job, where it fits.
fn put_job(job: &JobInput, out: &mut [u8]) -> usize
    requires whole_sizes { WholeSizes job.now.overrides.chunks.now job.now.overrides.layers.now
        job.now.overrides.bytes.now }
    requires room { length (job_file (job_in (handed job.now))) ≤ length out.old }
    requires few_slots { length job.now.forecast.now < 65536 }
    ensures { Puts out.old 0 (job_file (job_in (handed job.now))) out.new result }
{
    let layers = put_programme(out, 0, job.programme);
    let overrides = put_layers(out, layers, job.sizes);
    let runs = put_overrides(out, overrides, &job.overrides);
    let end = put_runs(out, runs, job.forecast);
    put_bytes(out, end, b"EN")
}

// Writes the file of a job into a lent buffer, and answers its number of bytes. Refusals: 5, 6, 18,
// 7, then 11 where the buffer is shorter than the file; 9 can't happen to an accepted job, whose
// file has at most 46,800 bytes. On a refusal the buffer stays as it is.
pub fn write_job(job: &JobInput, out: &mut [u8]) -> Result<usize, Refusal>
    ensures { JobWritePromise (handed job.now) out.old (by_number result) out.new }
{
    job::accept(job)?;
    let sizes = 6 * job.sizes.len() + 9 * job.overrides.chunks.len();
    let bytes = 12 + sizes + 8 * count_runs(job.forecast);
    refuse_unless(bytes <= out.len(), Refusal::ShortBuffer)?;
    Ok(put_job(job, out))
}
