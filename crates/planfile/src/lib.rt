// Plan files: the marks of every chunk and the rows of a fetch list, read and written.
#![tactic(auto)]

ghost use Rattle.std.specs.Prelude.{◌≡◌, map, ◌+◌, ◌*◌, ◌≤◌, ◌<◌, length};
ghost use Rattle.refusals.specs.Numbers.{refusal_number, by_number};
ghost use Rattle.theory_basics.specs.Lent.{lent_after};
ghost use Rattle.theory_basics.specs.Refusals.{unless};
ghost use Rattle.job.specs.Handed.{handed};
ghost use Rattle.records.specs.File.{file_refusal};
ghost use Rattle.records.specs.Fields.{written};
ghost use Rattle.fetch.specs.Rows.{rows_of};
ghost use Rattle.fetch.specs.Slices.{room};
ghost use Rattle.fetch.specs.Handed.{handed_list, lent_list, SameSlices};
ghost use Rattle.planfile.specs.Records.{encode, front, whole, read_of, read_at};
ghost use Rattle.planfile.specs.PlanFile.{format, kps, ft_of, file_of};
ghost use Rattle.planfile.specs.Calls.{PlanReadPromise, PlanWritePromise, plan_of, write_rest, written_by};
ghost use Rattle.planfile.specs.lemmas.Writing.{plan_records_bytes};
ghost use Rattle.planfile.specs.lemmas.Scan.{kp_stands, ft_stands, end_of};
ghost use Rattle.planfile.specs.lemmas.Scan.{KpsTaken, FtsTaken, FileRowsPost, mark_on, row_on, filled};

use fetch::{FetchList, LentList, Rows};
use job::JobInput;
use records::FILE_BYTES;
use refusals::{Refusal, refuse_unless};

// A record without its mark.
#[derive(Clone, Copy, Debug, PartialEq, Eq)]
pub enum Record {
    Kp {
        chunk: u16,
        marks: u8,
    },
    Ft {
        slot: u16,
        chunk: u16,
        layer: u8,
        bytes: u32,
    },
    En,
}

// The record of n bytes in front of some that start at a place, with the place after it.
fn whole(rest: &[u8], n: usize, record: Record, at: usize) -> Result<(Record, usize), Refusal>
    requires { at + length rest.now < 18446744073709551616 }
    ensures { by_number result ≡ read_of at (whole rest.now n «record») }
{
    refuse_unless(n <= rest.len(), Refusal::EndsEarly)?;
    Ok((record, at + n))
}

// The record in front of the bytes that start at a place: 1 where they end before its mark or
// within it, 2 for an unknown mark.
#[tactic(auto, unfolding(crate::specs::Records::front))]
fn record_in(rest: &[u8], at: usize) -> Result<(Record, usize), Refusal>
    requires { at + length rest.now < 18446744073709551616 }
    ensures { by_number result ≡ read_of at (front rest.now) }
{
    if rest.len() < 2 {
        Err(Refusal::EndsEarly)
    } else if records::is_mark(rest, 0, b"KP") {
        let chunk = records::h_at(rest, 2);
        let marks = records::byte_at(rest, 4);
        whole(rest, 5, Record::Kp { chunk, marks }, at)
    } else if records::is_mark(rest, 0, b"FT") {
        let slot = records::h_at(rest, 2);
        let chunk = records::h_at(rest, 4);
        let layer = records::byte_at(rest, 6);
        let bytes = records::w_at(rest, 7);
        let record = Record::Ft {
            slot,
            chunk,
            layer,
            bytes,
        };
        whole(rest, 11, record, at)
    } else if records::is_mark(rest, 0, b"EN") {
        whole(rest, 2, Record::En, at)
    } else {
        Err(Refusal::UnknownMark)
    }
}

// The record at a place.
#[tactic(auto, using(crate::proofs::Front::past_end))]
fn record_at(file: &[u8], at: usize) -> Result<(Record, usize), Refusal>
    ensures { by_number result ≡ read_at file.now at }
{
    if file.len() < at {
        Err(Refusal::EndsEarly)
    } else {
        record_in(&file[at..], at)
    }
}

// Whether a KP for a chunk stands whole at a place.
fn is_kp(file: &[u8], at: usize, chunk: usize) -> bool
    requires { at ≤ length file.now }
    ensures { result ≡ kp_stands file.now at chunk }
{
    5 <= file.len() - at
        && core_bytes::is_mark(file, at, b"KP")
        && core_bytes::h_at(file, at + 2) as usize == chunk
}

// Whether an FT stands whole at a place.
fn is_ft(file: &[u8], at: usize) -> bool
    requires { at ≤ length file.now }
    ensures { result ≡ ft_stands file.now at }
{
    11 <= file.len() - at && core_bytes::is_mark(file, at, b"FT")
}

// How many KPs stand in turn at a file's start, up to C.
fn count_kps(count: u16, file: &[u8]) -> usize
    ensures { KpsTaken count file.now result }
{
    for kept in 0..count as usize {
        if !is_kp(file, 5 * kept, kept + 1) {
            return kept;
        }
    }
    count as usize
}

// How many FTs stand from a place on.
fn count_fts(file: &[u8], from: usize) -> usize
    requires { from ≤ length file.now }
    ensures { FtsTaken file.now from result }
{
    let mut rows: usize = 0;
    while is_ft(file, from + 11 * rows) {
        rows += 1;
    }
    rows
}

// The refusal where the KPs in turn and the FTs end, none for an EN that ends the file. A KP there
// is out of turn, and no FT stands there.
fn accept_end(count: u16, kept: usize, file: &[u8], at: usize) -> Result<(), Refusal>
    ensures { refusal_number result ≡ end_of count kept (length file.now) (read_at file.now at) }
{
    let read = record_at(file, at);
    let Ok((record, next)) = read else {
        return Err(read.unwrap_err());
    };
    match record {
        Record::Kp { .. } => Err(Refusal::NotWhole),
        Record::Ft { .. } => Err(Refusal::EndsEarly),
        Record::En => {
            refuse_unless(file.len() == next, Refusal::BytesAfter)?;
            refuse_unless(kept == count as usize, Refusal::NotWhole)
        }
    }
}

// How many rows a file has, or its refusal: 9 first, then record by record.
fn file_rows(count: u16, file: &[u8]) -> Result<usize, Refusal>
    ensures { FileRowsPost count file.now (file_refusal (format count) file.now) (by_number result) }
{
    refuse_unless(file.len() <= FILE_BYTES, Refusal::LongFile)?;
    let kept = count_kps(count, file);
    let rows = count_fts(file, 5 * kept);
    accept_end(count, kept, file, 5 * kept + 11 * rows)?;
    Ok(rows)
}

// 11 unless the lent slices hold the marks of count chunks and so many rows.
fn accept_room(count: usize, rows: usize, out: &LentList) -> Result<(), Refusal>
    ensures { refusal_number result ≡ unless 11 (room (lent_list out.now) count rows) }
{
    let fits = rows <= out.slots.len()
        && rows <= out.chunks.len()
        && rows <= out.layers.len()
        && rows <= out.bytes.len();
    refuse_unless(count <= out.marks.len() && fits, Refusal::ShortBuffer)
}

// The marks of an accepted file.
fn copy_marks(file: &[u8], count: usize, marks: &mut [u8])
    requires { (count ≤ length marks.old) × (5 * count ≤ length file.now) }
    ensures { marks.new ≡ filled (mark_on file.now) count marks.old }
{
    for i in 0..count {
        marks[i] = file[5 * i + 4];
    }
}

// The rows of an accepted file.
// Kept: four slices, so that a turn of the loop doesn't load their places from the list.
fn copy_rows(
    file: &[u8],
    count: usize,
    rows: usize,
    slots: &mut [u16],
    chunks: &mut [u16],
    layers: &mut [u8],
    bytes: &mut [u32],
)
    requires { (rows ≤ length slots.old)
        × (rows ≤ length chunks.old)
        × (rows ≤ length layers.old)
        × (rows ≤ length bytes.old)
        × (5 * count + 11 * rows ≤ length file.now) }
    ensures slots { slots.new ≡ filled (λ i. (row_on file.now count i).slot) rows slots.old }
    ensures chunks { chunks.new ≡ filled (λ i. (row_on file.now count i).chunk) rows chunks.old }
    ensures layers { layers.new ≡ filled (λ i. (row_on file.now count i).layer) rows layers.old }
    ensures bytes { bytes.new ≡ filled (λ i. (row_on file.now count i).bytes) rows bytes.old }
{
    for i in 0..rows {
        let at = 5 * count + 11 * i;
        slots[i] = core_bytes::h_at(file, at + 2);
        chunks[i] = core_bytes::h_at(file, at + 4);
        layers[i] = file[at + 6];
        bytes[i] = core_bytes::w_at(file, at + 7);
    }
}

// A plan file's marks and rows into the lent slices: how many rows, or the refusal.
pub fn read_plan(job: &JobInput, file: &[u8], out: &mut LentList) -> Result<usize, Refusal>
    ensures promise { PlanReadPromise (handed job.now) file.now (lent_list out.old) (by_number result)
        (lent_list out.new) }
    ensures same { SameSlices out.old out.new }
{
    let chunks = job.programme.chunks;
    job::accept(job)?;
    let rows = file_rows(chunks, file)?;
    let count = chunks as usize;
    accept_room(count, rows, out)?;
    copy_marks(file, count, out.marks);
    copy_rows(
        file, count, rows, out.slots, out.chunks, out.layers, out.bytes,
    );
    Ok(rows)
}

// A KP record: chunk and marks.
fn put_kp(out: &mut [u8], at: usize, chunk: u16, marks: u8)
    requires { at + 5 ≤ length out.old }
    ensures { out.new ≡ written out.old at (encode (Record.Kp chunk marks)) }
{
    let [i, j] = chunk.to_le_bytes();
    let mark = b"KP";
    out[at..at + 5].copy_from_slice(&[mark[0], mark[1], i, j, marks]);
}

// An FT record: slot, chunk, layer and bytes.
fn put_ft(out: &mut [u8], at: usize, slot: u16, chunk: u16, layer: u8, bytes: u32)
    requires { at + 11 ≤ length out.old }
    ensures { out.new ≡ written out.old at (encode (Record.Ft slot chunk layer bytes)) }
{
    let [s, t] = slot.to_le_bytes();
    let [i, j] = chunk.to_le_bytes();
    let [a, b, c, d] = bytes.to_le_bytes();
    let mark = b"FT";
    let row = [mark[0], mark[1], s, t, i, j, layer, a, b, c, d];
    out[at..at + 11].copy_from_slice(&row);
}

// KP for every chunk.
fn put_kps(out: &mut [u8], marks: &[u8])
    requires { (5 * length marks.now ≤ length out.old) × (length marks.now < 65536) }
    ensures { out.new ≡ written out.old 0 (plan_records_bytes (kps marks.now)) }
{
    for i in 0..marks.len() {
        put_kp(out, 5 * i, (i + 1) as u16, marks[i]);
    }
}

// FT for every row, from a place on.
fn put_fts(out: &mut [u8], from: usize, rows: &Rows)
    requires { (length rows.now.slots.now ≡ length rows.now.chunks.now)
        × (length rows.now.slots.now ≡ length rows.now.layers.now)
        × (length rows.now.slots.now ≡ length rows.now.bytes.now)
        × (from + 11 * length rows.now.slots.now ≤ length out.old) }
    ensures { out.new ≡ written out.old from
        (plan_records_bytes
        (map ft_of
        (rows_of rows.now.slots.now rows.now.chunks.now rows.now.layers.now rows.now.bytes.now))) }
{
    // Held by themselves, so that a turn of the loop doesn't load their places from the rows.
    let Rows {
        slots,
        chunks,
        layers,
        bytes,
    } = *rows;
    for i in 0..slots.len() {
        let at = from + 11 * i;
        put_ft(out, at, slots[i], chunks[i], layers[i], bytes[i]);
    }
}

// The file of a plan for a job with count chunks, into the lent buffer: 8, 9, then 11. So many rows
// are too many for any file, so that its size doesn't wrap.
fn write_file(count: u16, list: &FetchList, out: &mut [u8]) -> Result<usize, Refusal>
    ensures answer { by_number result ≡
        written_by (write_rest count (handed_list list.now) out.old) (handed_list list.now) }
    ensures lent { out.new ≡ lent_after (write_rest count (handed_list list.now) out.old)
        (file_of (plan_of (handed_list list.now))) out.old }
{
    fetch::accept_list(count, list)?;
    let rows = list.rows.slots.len();
    refuse_unless(rows <= 65535, Refusal::LongFile)?;
    let from = 5 * list.marks.len();
    let last = from + 11 * rows;
    let end = last + 2;
    refuse_unless(end <= FILE_BYTES, Refusal::LongFile)?;
    refuse_unless(end <= out.len(), Refusal::ShortBuffer)?;
    put_kps(out, list.marks);
    put_fts(out, from, &list.rows);
    records::put(out, last, b"EN");
    Ok(end)
}

// A plan's file into the lent buffer: how many bytes, or the refusal.
pub fn write_plan(job: &JobInput, list: &FetchList, out: &mut [u8]) -> Result<usize, Refusal>
    ensures { PlanWritePromise (handed job.now) (handed_list list.now) out.old (by_number result)
        out.new }
{
    job::accept(job)?;
    write_file(job.programme.chunks, list, out)
}
