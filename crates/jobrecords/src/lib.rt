// Records of job files, and the reading of a file of either form into lent buffers that a refusal
// leaves as they are: document 02's files, in one sequence, and document 01's mixed ones. A record
// is read, judged and taken a turn, with the sound runs or SZs that follow it; sizes and slots
// stand in tables until every refusal has been ruled out. The SZs stand in the file one after the
// other, so only their number and the place after them are kept.
#![tactic(auto)]

ghost use Rattle.std.specs.Prelude.{◌≡◌, ◌+◌, ◌*◌, ◌≤◌, ◌<◌, length, replicate, drop, leb, not, ◌&&◌, ◌||◌};
ghost use Rattle.std.proofs.Math.Seq.{paste};
ghost use Rattle.theory_basics.specs.Lent.{over};
ghost use Rattle.theory_basics.specs.Refusals.{unless};
ghost use Rattle.refusals.specs.Numbers.{refusal_number, by_number};
ghost use Rattle.job.specs.Refusal.{overrides_refusal};
ghost use Rattle.job.specs.Input.{override_chunks, override_layers, override_bytes};
ghost use Rattle.records.specs.Fields.{marked};
ghost use Rattle.jobrecords.specs.Records.{SZ, whole, front, is_end};
ghost use Rattle.jobrecords.specs.Refusal.{layer_fault, run_fault};
ghost use Rattle.jobrecords.specs.lemmas.Reading.{no_records, programme_on, run_follows, fault_after};
ghost use Rattle.jobrecords.specs.lemmas.Reading.{overrides_on, end_code, room_by};
ghost use Rattle.jobrecords.specs.lemmas.Reading.{Inside, Sized, Room, Fine, TakeRecordPost, OneStepPre};
ghost use Rattle.jobrecords.specs.lemmas.Reading.{OneStepPost, ReadAllPost};
ghost use Rattle.jobrecords.specs.lemmas.Reading.{Reached, GoesOn, SoundRunPost, TakeRunsPost, TakeOverridesPost};
ghost use Rattle.jobrecords.specs.Reader.{read_front, read_at, JobReadPromise};
ghost use Rattle.jobrecords.specs.Handed.{lent_job, SameBuffers};

use job::{LAYERS, MOST_BYTES, OVERRIDES, Overrides, Programme, SLOTS};
use records::FILE_BYTES;
use refusals::{Refusal, refuse_unless};

// A record of a job file, without its mark.
#[derive(Clone, Copy, Debug, PartialEq, Eq)]
pub enum Record {
    Pg(Programme),
    Ly(u32),
    Sz { chunk: u16, layer: u8, bytes: u32 },
    Bw { count: u16, bytes: u32 },
    En,
}

// The job that was read from a file: its programme, and how many sizes, SZs and slots stand in the
// lent buffers.
#[derive(Clone, Copy, Debug, PartialEq, Eq)]
pub struct ReadJob {
    pub programme: Programme,
    pub layers: usize,
    pub overrides: usize,
    pub slots: usize,
}

// Room for a job: for its sizes, for the chunks, layers and sizes of its SZs, and for its forecast.
// Kept: the SZs in three buffers, as the C interface lends them.
#[derive(Drop)]
pub struct LentJob<'a> {
    pub sizes: &'a mut [u32],
    pub chunks: &'a mut [u16],
    pub layers: &'a mut [u8],
    pub bytes: &'a mut [u32],
    pub forecast: &'a mut [u32],
}

// What the records so far say beside the sizes and the forecast, which stand in tables; of the last
// record its place in the sequence, 0 if there is none, and its bytes, if it is a run; of the SZs
// how many there are and the place in the file after the last.
#[derive(Clone, Copy)]
struct Progress {
    place: u8,
    bytes: u32,
    seen: bool,
    programme: Programme,
    layers: usize,
    overrides: usize,
    ends: usize,
    slots: usize,
}

// What a record does: on from a place, or a whole job.
#[derive(Clone, Copy)]
enum Step {
    On(Progress, usize),
    Done(Progress),
}

// The record of n bytes in front of some that start at a place, with the place after it.
fn whole(rest: &[u8], n: usize, record: Record, at: usize) -> Result<(Record, usize), Refusal>
    requires { at + length rest.now < 18446744073709551616 }
    ensures { by_number result ≡ read_front at (whole rest.now n «record») }
{
    refuse_unless(n <= rest.len(), Refusal::EndsEarly)?;
    Ok((record, at + n))
}

// The programme of a PG in front of some bytes.
fn programme_in(rest: &[u8]) -> Programme
    ensures { result ≡ programme_on rest.now }
{
    Programme {
        chunks: records::h_at(rest, 2),
        span: records::h_at(rest, 4),
        delay: records::h_at(rest, 6),
        limit: records::h_at(rest, 8),
    }
}

// The record in front of the bytes that start at a place.
#[tactic(auto, unfolding(crate::specs::Records::front))]
fn record_in(sequenced: bool, rest: &[u8], at: usize) -> Result<(Record, usize), Refusal>
    requires { at + length rest.now < 18446744073709551616 }
    ensures { by_number result ≡ read_front at (front sequenced rest.now) }
{
    if rest.len() < 2 {
        Err(Refusal::EndsEarly)
    } else if records::is_mark(rest, 0, b"PG") {
        whole(rest, 10, Record::Pg(programme_in(rest)), at)
    } else if records::is_mark(rest, 0, b"LY") {
        whole(rest, 6, Record::Ly(records::w_at(rest, 2)), at)
    } else if records::is_mark(rest, 0, b"BW") {
        let count = records::h_at(rest, 2);
        let bytes = records::w_at(rest, 4);
        whole(rest, 8, Record::Bw { count, bytes }, at)
    } else if records::is_mark(rest, 0, b"EN") {
        whole(rest, 2, Record::En, at)
    } else if sequenced && records::is_mark(rest, 0, b"SZ") {
        let chunk = records::h_at(rest, 2);
        let layer = records::byte_at(rest, 4);
        let bytes = records::w_at(rest, 5);
        whole(
            rest,
            9,
            Record::Sz {
                chunk,
                layer,
                bytes,
            },
            at,
        )
    } else {
        Err(Refusal::UnknownMark)
    }
}

// The record at a place: taken only if its mark and its whole body are there.
#[tactic(auto, using(crate::proofs::Fronts::past_end))]
fn record_at(sequenced: bool, file: &[u8], at: usize) -> Result<(Record, usize), Refusal>
    ensures { by_number result ≡ read_at sequenced file.now at }
{
    if file.len() < at {
        Err(Refusal::EndsEarly)
    } else {
        record_in(sequenced, &file[at..], at)
    }
}

// Whether a BW of some bytes may stand after a record of that place in the sequence: after a PG, an
// LY or an SZ, and after a run of other bytes.
fn run_follows(place: u8, last: u32, bytes: u32) -> bool
    ensures { result ≡ run_follows place last bytes }
{
    1 <= place && (place <= 3 || last != bytes)
}

// 17 unless a record follows, where one sequence is asked.
fn accept_place(sequenced: bool, follows: bool) -> Result<(), Refusal>
    ensures { refusal_number result ≡ unless 17 (not sequenced || follows) }
{
    refuse_unless(!sequenced || follows, Refusal::Sequence)
}

// 6 of an LY after so many layers.
fn accept_size(layers: usize, size: u32) -> Result<(), Refusal>
    ensures { refusal_number result ≡ layer_fault layers size }
{
    let within = 1 <= size && size <= MOST_BYTES;
    refuse_unless(within && layers < LAYERS, Refusal::LayerSize)
}

// 7 of a BW after so many slots.
fn accept_slots(slots: usize, count: u16, bytes: u32) -> Result<(), Refusal>
    requires { slots ≤ 3600 }
    ensures { refusal_number result ≡ run_fault slots count bytes }
{
    let some = 1 <= count;
    let room = slots + (count as usize) <= SLOTS;
    refuse_unless(some && (room && bytes <= MOST_BYTES), Refusal::Forecast)
}

// The n SZs that stand in a file from a place on go to the start of three buffers.
fn gather(file: &[u8], from: usize, n: usize, cs: &mut [u16], ls: &mut [u8], bs: &mut [u32])
    requires records_inside { from + 9 * n ≤ length file.now }
    requires buffers_hold { (n ≤ length cs.old) × (n ≤ length ls.old) × (n ≤ length bs.old) }
    ensures chunks { cs.new ≡ over (override_chunks (overrides_on file.now from n)) cs.old }
    ensures layers { ls.new ≡ over (override_layers (overrides_on file.now from n)) ls.old }
    ensures bytes { bs.new ≡ over (override_bytes (overrides_on file.now from n)) bs.old }
{
    for i in 0..n {
        let at = from + 9 * i;
        cs[i] = core_bytes::h_at(file, at + 2);
        ls[i] = file[at + 4];
        bs[i] = core_bytes::w_at(file, at + 5);
    }
}

// 18 of n SZs that stand in a file from a place on. A file can hold more of them than a job can
// have, which is 1,996.
fn accept_overrides(
    file: &[u8],
    p: Programme,
    sizes: &[u32],
    from: usize,
    n: usize,
) -> Result<(), Refusal>
    requires records_inside { from + 9 * n ≤ length file.now }
    requires few { (p.chunks ≤ 500) × (length sizes.now ≤ 4) }
    ensures { refusal_number result ≡ overrides_refusal p sizes.now (overrides_on file.now from n) }
{
    if n == 0 {
        return Ok(());
    }
    refuse_unless(n <= OVERRIDES, Refusal::Sz)?;
    let mut cs = [0u16; OVERRIDES];
    let mut ls = [0u8; OVERRIDES];
    let mut bs = [0u32; OVERRIDES];
    gather(file, from, n, &mut cs, &mut ls, &mut bs);
    let overrides = Overrides {
        chunks: &cs[..n],
        layers: &ls[..n],
        bytes: &bs[..n],
    };
    job::accept_overrides(p, sizes, &overrides)
}

// 3, 4, 6, 18, 7 at EN, with so many bytes after it and the sizes in a table.
fn accept_end(file: &[u8], j: Progress, after: usize, sizes: &[u32; LAYERS]) -> Result<(), Refusal>
    requires { Inside file.now j × Sized j sizes.now }
    ensures { refusal_number result ≡ end_code file.now j after sizes.now }
{
    refuse_unless(after == 0, Refusal::BytesAfter)?;
    refuse_unless(j.seen, Refusal::Programmes)?;
    refuse_unless(1 <= j.layers, Refusal::LayerSize)?;
    let from = j.ends - 9 * j.overrides;
    accept_overrides(file, j.programme, &sizes[..j.layers], from, j.overrides)?;
    refuse_unless(j.slots == job::last_due(j.programme), Refusal::Forecast)
}

// 4, 17, 5 of a PG after the records that the state stands for.
fn accept_programme(sequenced: bool, j: Progress, p: Programme) -> Result<(), Refusal>
    ensures { refusal_number result ≡ fault_after sequenced j (Record.Pg p) }
{
    refuse_unless(!j.seen, Refusal::Programmes)?;
    accept_place(sequenced, j.place == 0)?;
    job::accept_fields(p)?;
    job::accept_last_due(p)
}

// 17, 6 of an LY, which may stand after a PG or an LY: places 1 and 2 of the sequence.
fn accept_layer(sequenced: bool, j: Progress, size: u32) -> Result<(), Refusal>
    ensures { refusal_number result ≡ fault_after sequenced j (Record.Ly size) }
{
    accept_place(sequenced, 1 <= j.place && j.place <= 2)?;
    accept_size(j.layers, size)
}

// 17, 7 of a BW.
fn accept_run(sequenced: bool, j: Progress, count: u16, bytes: u32) -> Result<(), Refusal>
    requires { j.slots ≤ 3600 }
    ensures { refusal_number result ≡ fault_after sequenced j (Record.Bw count bytes) }
{
    accept_place(sequenced, run_follows(j.place, j.bytes, bytes))?;
    accept_slots(j.slots, count, bytes)
}

// The fault of a record after those that the state stands for. An SZ may stand after a PG, an LY or
// an SZ: places 1 to 3 of the sequence.
fn accept_record(sequenced: bool, j: Progress, record: Record) -> Result<(), Refusal>
    requires { j.slots ≤ 3600 }
    ensures { refusal_number result ≡ fault_after sequenced j «record» }
{
    match record {
        Record::Pg(p) => accept_programme(sequenced, j, p),
        Record::Ly(size) => accept_layer(sequenced, j, size),
        Record::Sz { .. } => accept_place(sequenced, 1 <= j.place && j.place <= 3),
        Record::Bw { count, bytes } => accept_run(sequenced, j, count, bytes),
        Record::En => Ok(()),
    }
}

// The record is EN.
fn is_end(record: Record) -> bool
    ensures { result ≡ is_end «record» }
{
    matches!(record, Record::En)
}

// The slots `from` to `from` + count - 1 get v bytes; most runs have one slot, which needs no loop.
fn put_run(slots: &mut [u32], from: usize, count: usize, v: u32)
    requires { from + count ≤ length slots.old }
    ensures { slots.new ≡ paste slots.old from (replicate count v) count }
{
    if count == 1 {
        slots[from] = v;
    } else {
        slots[from..from + count].fill(v);
    }
}

// A record without a fault, not EN, that ends at a place goes into the state and the tables.
fn take_record(
    j: Progress,
    record: Record,
    next: usize,
    sizes: &mut [u32; LAYERS],
    slots: &mut [u32; SLOTS],
) -> Progress
    requires room { Room j sizes.old slots.old }
    requires overrides_bound { 9 * j.overrides ≤ j.ends }
    requires fine { Fine j «record» }
    ensures { TakeRecordPost j sizes.old slots.old «record» next
        result sizes.new slots.new }
{
    match record {
        Record::Pg(programme) => Progress {
            place: 1,
            bytes: 0,
            seen: true,
            programme,
            ..j
        },
        Record::Ly(size) => {
            sizes[j.layers] = size;
            Progress {
                place: 2,
                bytes: 0,
                layers: j.layers + 1,
                ..j
            }
        }
        Record::Sz { .. } => Progress {
            place: 3,
            bytes: 0,
            overrides: j.overrides + 1,
            ends: next,
            ..j
        },
        Record::Bw { count, bytes } => {
            put_run(slots, j.slots, count as usize, bytes);
            Progress {
                place: 4,
                bytes,
                slots: j.slots + (count as usize),
                ..j
            }
        }
        Record::En => j,
    }
}

// The run at a place, slots and bytes, after another of the bytes `last` and so many slots: one that
// has its mark, its whole body and no fault. What else stands there is judged by `one_step`.
fn sound_run(file: &[u8], at: usize, slots: usize, last: u32) -> Option<(u16, u32)>
    requires { (at ≤ length file.now) × (slots ≤ 3600) }
    ensures { SoundRunPost file.now at slots last result }
{
    if file.len() - at < 8 || !core_bytes::is_mark(file, at, b"BW") {
        return None;
    }
    let count = core_bytes::h_at(file, at + 2);
    let bytes = core_bytes::w_at(file, at + 4);
    if run_follows(4, last, bytes) && accept_slots(slots, count, bytes).is_ok() {
        Some((count, bytes))
    } else {
        None
    }
}

// After a run: every sound run that follows. A loop on three numbers, since a file can have 3,600
// of them.
fn take_runs(file: &[u8], from: usize, j: Progress, slots: &mut [u32; SLOTS]) -> (Progress, usize)
    requires { Reached file.now from j × (j.place ≡ 4) }
    ensures { TakeRunsPost file.now from j slots.old result slots.new }
{
    let mut at = from;
    let mut so_far = j.slots;
    let mut last = j.bytes;
    while let Some((count, bytes)) = sound_run(file, at, so_far, last) {
        put_run(slots, so_far, count as usize, bytes);
        so_far += count as usize;
        last = bytes;
        at += 8;
    }
    let taken = Progress {
        place: 4,
        bytes: last,
        slots: so_far,
        ..j
    };
    (taken, at)
}

// Whether a whole SZ stands at a place.
fn override_at(file: &[u8], at: usize) -> bool
    requires { at ≤ length file.now }
    ensures { result ≡ leb (at + 9) (length file.now) && marked SZ (drop at file.now) }
{
    9 <= file.len() - at && core_bytes::is_mark(file, at, b"SZ")
}

// After an SZ, where one sequence is asked: every SZ that follows.
fn take_overrides(file: &[u8], from: usize, j: Progress) -> (Progress, usize)
    requires { Reached file.now from j × (j.place ≡ 3) }
    ensures { TakeOverridesPost file.now from j result }
{
    let mut n: usize = 0;
    let mut at = from;
    while override_at(file, at) {
        n += 1;
        at += 9;
    }
    let taken = Progress {
        place: 3,
        bytes: 0,
        overrides: j.overrides + n,
        ends: at,
        ..j
    };
    (taken, at)
}

// On from a place after a record that was taken: with the sound runs after a run, with the SZs
// after an SZ.
fn go_on(
    sequenced: bool,
    file: &[u8],
    from: usize,
    j: Progress,
    slots: &mut [u32; SLOTS],
) -> (Progress, usize)
    requires { Reached file.now from j }
    ensures { GoesOn sequenced file.now from j slots.old result slots.new }
{
    if j.place == 4 {
        take_runs(file, from, j, slots)
    } else if sequenced && j.place == 3 {
        take_overrides(file, from, j)
    } else {
        (j, from)
    }
}

// A record read, judged and taken, with those of its kind that follow a run or an SZ.
fn one_step(
    sequenced: bool,
    file: &[u8],
    at: usize,
    j: Progress,
    sizes: &mut [u32; LAYERS],
    slots: &mut [u32; SLOTS],
) -> Result<Step, Refusal>
    requires { OneStepPre sequenced file.now at j sizes.old slots.old }
    ensures { OneStepPost sequenced file.now at sizes.new slots.new result }
{
    let read = record_at(sequenced, file, at);
    let Ok((record, next)) = read else {
        return Err(read.unwrap_err());
    };
    if is_end(record) {
        accept_end(file, j, file.len() - next, sizes)?;
        return Ok(Step::Done(j));
    }
    accept_record(sequenced, j, record)?;
    let taken = take_record(j, record, next, sizes, slots);
    let (on, place) = go_on(sequenced, file, next, taken, slots);
    Ok(Step::On(on, place))
}

// The state before any record.
fn nothing() -> Progress
    ensures { result ≡ no_records }
{
    Progress {
        place: 0,
        bytes: 0,
        seen: false,
        programme: Programme {
            chunks: 0,
            span: 0,
            delay: 0,
            limit: 0,
        },
        layers: 0,
        overrides: 0,
        ends: 0,
        slots: 0,
    }
}

// Every record, turn by turn.
fn read_all(
    sequenced: bool,
    file: &[u8],
    sizes: &mut [u32; LAYERS],
    slots: &mut [u32; SLOTS],
) -> Result<Progress, Refusal>
    ensures { ReadAllPost sequenced file.now sizes.new slots.new result }
{
    let mut j = nothing();
    let mut at: usize = 0;
    loop {
        match one_step(sequenced, file, at, j, sizes, slots)? {
            Step::On(more, next) => {
                j = more;
                at = next;
            }
            Step::Done(whole) => return Ok(whole),
        }
    }
}

// 11 unless the buffers hold so many layers, SZs and slots.
fn accept_room(j: Progress, out: &LentJob) -> Result<(), Refusal>
    ensures { refusal_number result ≡ room_by j.layers j.overrides j.slots
        (lent_job out.now) }
{
    let overrides = j.overrides <= out.chunks.len()
        && j.overrides <= out.layers.len()
        && j.overrides <= out.bytes.len();
    refuse_unless(
        j.layers <= out.sizes.len() && overrides && j.slots <= out.forecast.len(),
        Refusal::ShortBuffer,
    )
}

// Reads a job file, in one sequence or mixed, into the lent sizes, SZs and forecast. Refusals: 9,
// then record by record, 17 where one sequence is asked, at EN 3, 4, 6, 18, 7; then 11 where a
// buffer is shorter than the job's sizes, SZs or slots. On a refusal every buffer stays as it is.
pub fn read_job(sequenced: bool, file: &[u8], out: &mut LentJob) -> Result<ReadJob, Refusal>
    ensures promise { JobReadPromise sequenced file.now (lent_job out.old) (by_number result)
        (lent_job out.new) }
    ensures same { SameBuffers out.old out.new }
{
    refuse_unless(file.len() <= FILE_BYTES, Refusal::LongFile)?;
    let mut sizes = [0u32; LAYERS];
    let mut slots = [0u32; SLOTS];
    let j = read_all(sequenced, file, &mut sizes, &mut slots)?;
    accept_room(j, out)?;
    out.sizes[..j.layers].copy_from_slice(&sizes[..j.layers]);
    let from = j.ends - 9 * j.overrides;
    gather(file, from, j.overrides, out.chunks, out.layers, out.bytes);
    out.forecast[..j.slots].copy_from_slice(&slots[..j.slots]);
    Ok(ReadJob {
        programme: j.programme,
        layers: j.layers,
        overrides: j.overrides,
        slots: j.slots,
    })
}
