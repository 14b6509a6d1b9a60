// Internal. A decided choice handed over, whoever decided it, from the slot on where its forecast
// starts: its rows, marks and counts into lent slices where these hold it whole. The chunks, their
// releases and their marks stand at the end of tables of 500 places, from a first place on, as
// core_decide and core_replan_decide leave them. Made afresh, a plan lists what is left of its
// layers, and a chunk that stands in no table keeps the mark of what is whole of it.
#![tactic(auto)]

ghost use Rattle.std.specs.Prelude.{◌≡◌, ◌≤◌, length, drop, take};
ghost use Rattle.theory_basics.specs.Lent.{over};
ghost use Rattle.core_sizes.specs.Table.{table_at};
ghost use Rattle.core_output.specs.lemmas.Writing.{WritePre, FillPre, FillPost, WritePost};
ghost use Rattle.core_output.specs.lemmas.Writing.{marks_in, told};
ghost use Rattle.theory_plan.specs.Bases.{Asc};

use job::{CHUNKS, ROWS, SizeTable};

// The rows made, and the counts.
#[derive(Clone, Copy)]
struct Filled {
    pub rows: usize,
    pub counts: [u16; 4],
}

// Whether the slices hold the rows and marks whole, how many rows there are, and the counts.
#[derive(Clone, Copy)]
pub struct Output {
    pub whole: bool,
    pub rows: usize,
    pub counts: [u16; 4],
}

// The marks of the layers that are whole already, one by one: a copy of a slice would ask libc for
// one that may overlap.
fn put_whole(whole: &[u8; CHUNKS], count: usize, marks: &mut [u8])
    requires { (count ≤ 500) × (count ≤ length marks.old) }
    ensures { marks.new ≡ over (take count whole.now) marks.old }
{
    for k in 0..count {
        marks[k] = whole[k];
    }
}

// A mark for each chunk: what is whole, and over it the one at its place in the tables.
fn spread(
    ids: &[u16; CHUNKS],
    mark: &[u8; CHUNKS],
    first: usize,
    whole: &[u8; CHUNKS],
    count: usize,
    marks: &mut [u8],
)
    requires { (first ≤ 500)
        × (count ≤ 500)
        × (count ≤ length marks.old)
        × Asc 1 count (drop first ids.now) }
    ensures { marks.new ≡ over
        (marks_in count first ids.now mark.now whole.now) marks.old }
{
    put_whole(whole, count, marks);
    for q in first..CHUNKS {
        marks[ids[q] as usize - 1] = mark[q];
    }
}

// Into slices that have room for any plan.
fn fill(
    count: usize,
    part: &[u32],
    start: usize,
    afresh: bool,
    table: &SizeTable,
    first: usize,
    ids: &[u16; CHUNKS],
    ready: &[u16; CHUNKS],
    mark: &[u8; CHUNKS],
    whole: &[u8; CHUNKS],
    marks: &mut [u8],
    slots: &mut [u16],
    chunks: &mut [u16],
    layers: &mut [u8],
    bytes: &mut [u32],
) -> Filled
    requires { FillPre count start part.now afresh (table_at table.now) first ids.now ready.now mark.now
        whole.now marks.old slots.old chunks.old layers.old bytes.old }
    ensures { FillPost
        (told count start part.now afresh (table_at table.now) first ids.now
        ready.now mark.now whole.now)
        marks.old slots.old chunks.old layers.old bytes.old
        result marks.new slots.new chunks.new layers.new bytes.new }
{
    let from = core_fill::Position {
        slot: start,
        left: part[0],
        rows: 0,
    };
    let end = core_fill::put_all(
        part, start, afresh, table, ids, ready, mark, first, from, slots, chunks, layers, bytes,
    );
    spread(ids, mark, first, whole, count, marks);
    let counts = core_slices::count_layers(&marks[..count]);
    Filled {
        rows: end.rows,
        counts,
    }
}

// Into slices that may be too short: laid out aside, and copied if it fits whole.
fn write_aside(
    count: usize,
    part: &[u32],
    start: usize,
    afresh: bool,
    table: &SizeTable,
    first: usize,
    ids: &[u16; CHUNKS],
    ready: &[u16; CHUNKS],
    mark: &[u8; CHUNKS],
    whole: &[u8; CHUNKS],
    marks: &mut [u8],
    slots: &mut [u16],
    chunks: &mut [u16],
    layers: &mut [u8],
    bytes: &mut [u32],
) -> Output
    requires { WritePre count start part.now afresh (table_at table.now) first ids.now ready.now mark.now
        whole.now marks.old }
    ensures { WritePost
        (told count start part.now afresh (table_at table.now) first ids.now
        ready.now mark.now whole.now)
        marks.old slots.old chunks.old layers.old bytes.old
        result marks.new slots.new chunks.new layers.new bytes.new }
{
    let mut own_marks = [0u8; CHUNKS];
    let mut own_slots = [0u16; ROWS];
    let mut own_chunks = [0u16; ROWS];
    let mut own_layers = [0u8; ROWS];
    let mut own_bytes = [0u32; ROWS];
    let made = fill(
        count,
        part,
        start,
        afresh,
        table,
        first,
        ids,
        ready,
        mark,
        whole,
        &mut own_marks,
        &mut own_slots,
        &mut own_chunks,
        &mut own_layers,
        &mut own_bytes,
    );
    let rows = made.rows;
    // Kept: the proof wants a variable for a field that is an array.
    let counts = made.counts;
    let fits = core_slices::all_at_least(
        rows,
        slots.len(),
        chunks.len(),
        layers.len(),
        bytes.len(),
    );
    if fits {
        core_slices::copy_over(&own_marks, count, marks);
        core_slices::copy_over(&own_slots, rows, slots);
        core_slices::copy_over(&own_chunks, rows, chunks);
        core_slices::copy_over(&own_layers, rows, layers);
        core_slices::copy_over(&own_bytes, rows, bytes);
    }
    Output {
        whole: fits,
        rows,
        counts,
    }
}

// The rows, by slot, chunk, layer, and a mark for each of count chunks. Where a row slice is too
// short nothing is written.
pub fn write_plan(
    count: usize,
    part: &[u32],
    start: usize,
    afresh: bool,
    table: &SizeTable,
    first: usize,
    ids: &[u16; CHUNKS],
    ready: &[u16; CHUNKS],
    mark: &[u8; CHUNKS],
    whole: &[u8; CHUNKS],
    marks: &mut [u8],
    slots: &mut [u16],
    chunks: &mut [u16],
    layers: &mut [u8],
    bytes: &mut [u32],
) -> Output
    requires { WritePre count start part.now afresh (table_at table.now) first ids.now ready.now mark.now
        whole.now marks.old }
    ensures { WritePost
        (told count start part.now afresh (table_at table.now) first ids.now
        ready.now mark.now whole.now)
        marks.old slots.old chunks.old layers.old bytes.old
        result marks.new slots.new chunks.new layers.new bytes.new }
{
    if core_slices::all_at_least(ROWS, slots.len(), chunks.len(), layers.len(), bytes.len()) {
        let made = fill(
            count, part, start, afresh, table, first, ids, ready, mark, whole, marks, slots,
            chunks, layers, bytes,
        );
        // Kept: as in write_aside.
        let counts = made.counts;
        Output {
            whole: true,
            rows: made.rows,
            counts,
        }
    } else {
        write_aside(
            count, part, start, afresh, table, first, ids, ready, mark, whole, marks, slots,
            chunks, layers, bytes,
        )
    }
}
