// Internal. What to ask the link for in a slot, over tables by chunk: what the rows fetched leave
// of each layer, and which chunks they begin. The rule is that of theory_live, Statement; each
// function answers one of its words, and the pieces go into tables that have room for any.
#![tactic(auto)]

ghost use Rattle.std.specs.Prelude.{◌≡◌, ◌&&◌, not, ◌+◌, ◌<◌, ◌≤◌, leb, ltb, eqb};
ghost use Rattle.job.specs.Job.{due_slot, Within};
ghost use Rattle.core_sizes.specs.Table.{table_at};
ghost use Rattle.core_replan_decide.specs.lemmas.Tables.{Fine, of};
ghost use Rattle.theory_live.specs.Statement.{first_that};
ghost use Rattle.core_live.specs.lemmas.ByTables.{open_at, brings_at, in_time_at, lacks_at, could_come_at};
ghost use Rattle.core_live.specs.lemmas.ByTables.{PassedUntilPost};
ghost use Rattle.core_live.specs.lemmas.ByTables.{passed_at, line_at, held_at, AskedFlags};
ghost use Rattle.core_live.specs.lemmas.ByTables.{PutLayerPost, PiecesStand, pieces_at, AskPre, AskPost};

use job::{CHUNKS, Programme, SIZES, SizeTable};

// Open: due in slot start or later, and begun or not overtaken by the last begun chunk.
fn is_open(p: Programme, start: usize, begun: &[u8; CHUNKS], last: u16, i: u16) -> bool
    requires { Within 1 500 i }
    ensures { result ≡ open_at p start begun.now last i }
{
    start <= job::due_slot(p, i) && (begun[i as usize - 1] == 1 || last <= i)
}

// Open, with bytes of the base missing.
fn lacks(
    p: Programme,
    start: usize,
    left: &SizeTable,
    begun: &[u8; CHUNKS],
    last: u16,
    i: u16,
) -> bool
    requires { Within 1 500 i }
    ensures { result ≡ lacks_at p start (table_at left.now) begun.now last i }
{
    is_open(p, start, begun, last, i) && 0 < core_sizes::size_in(left, i, 0)
}

// What the rate brings from slot start to the due slot of chunk i. A rate of 32 bits over 3,600
// slots needs 44.
fn brings(p: Programme, start: usize, rate: u32, i: u16) -> u64
    requires { due_slot p i ≤ 3600 }
    ensures { result ≡ brings_at p start rate i }
{
    let slots = job::due_slot(p, i).saturating_sub(start) as u64 + 1;
    rate as u64 * slots
}

// The rate brings what is missing of the base of chunk i by its due slot.
fn in_time(p: Programme, start: usize, rate: u32, left: &SizeTable, i: u16) -> bool
    requires { Within 1 500 i × (due_slot p i ≤ 3600) }
    ensures { result ≡ in_time_at p start rate (table_at left.now) i }
{
    core_sizes::size_in(left, i, 0) as u64 <= brings(p, start, rate, i)
}

// The rate brings what is missing of the bases of chunks k and m by the due slot of chunk m.
fn in_time_behind(p: Programme, start: usize, rate: u32, left: &SizeTable, k: u16, m: u16) -> bool
    requires { Within 1 500 k × Within 1 500 m × (due_slot p m ≤ 3600) }
    ensures { result ≡ leb (table_at left.now k 0 + table_at left.now m 0)
        (brings_at p start rate m) }
{
    let before = core_sizes::size_in(left, k, 0) as u64;
    let missing = core_sizes::size_in(left, m, 0) as u64;
    before + missing <= brings(p, start, rate, m)
}

// The first open chunk that lacks base bytes; one after the last if none does.
fn first_lacking(
    p: Programme,
    start: usize,
    left: &SizeTable,
    begun: &[u8; CHUNKS],
    last: u16,
) -> u16
    requires { Fine p }
    ensures { result ≡
        first_that (lacks_at p start (table_at left.now) begun.now last) p.chunks }
{
    for i in 0..p.chunks {
        if lacks(p, start, left, begun, last, i + 1) {
            return i + 1;
        }
    }
    p.chunks + 1
}

// The first of the next H open chunks after k that lacks base bytes and is in time; one after the
// last if none is.
fn next_in_time(
    p: Programme,
    start: usize,
    rate: u32,
    left: &SizeTable,
    begun: &[u8; CHUNKS],
    last: u16,
    k: u16,
) -> u16
    requires { Fine p × (k ≤ p.chunks) }
    ensures { result ≡
        first_that (could_come_at p start rate (table_at left.now) begun.now last k) p.chunks }
{
    let most = job::held_most(p) as usize;
    let mut seen: usize = 0;
    for i in k..p.chunks {
        seen += is_open(p, start, begun, last, i + 1) as usize;
        let lacking = lacks(p, start, left, begun, last, i + 1);
        let timely = in_time(p, start, rate, left, i + 1);
        if (seen <= most) & lacking & timely {
            return i + 1;
        }
    }
    p.chunks + 1
}

// The chunk before which those from k on that lack base bytes are passed over; 0 if none is.
fn passed_until(
    p: Programme,
    start: usize,
    rate: u32,
    left: &SizeTable,
    begun: &[u8; CHUNKS],
    last: u16,
    k: u16,
) -> u16
    requires { Fine p × (1 ≤ k) }
    ensures { PassedUntilPost p start rate (table_at left.now) begun.now last k result }
{
    if p.chunks < k || in_time(p, start, rate, left, k) {
        return 0;
    }
    let m = next_in_time(p, start, rate, left, begun, last, k);
    if p.chunks < m || in_time_behind(p, start, rate, left, k, m) {
        0
    } else {
        m
    }
}

// Passed over: chunk i lacks base bytes and stands from chunk `from` to before chunk `until`.
fn is_passed(
    p: Programme,
    start: usize,
    left: &SizeTable,
    begun: &[u8; CHUNKS],
    last: u16,
    from: u16,
    until: u16,
    i: u16,
) -> bool
    requires { Within 1 500 i }
    ensures { result ≡ passed_at p start (table_at left.now) begun.now last from until i }
{
    from <= i && i < until && lacks(p, start, left, begun, last, i)
}

// Open, and not passed over.
fn in_line(
    p: Programme,
    start: usize,
    left: &SizeTable,
    begun: &[u8; CHUNKS],
    last: u16,
    from: u16,
    until: u16,
    i: u16,
) -> bool
    requires { Within 1 500 i }
    ensures { result ≡ line_at p start (table_at left.now) begun.now last from until i }
{
    is_open(p, start, begun, last, i) && !is_passed(p, start, left, begun, last, from, until, i)
}

// In line, not begun, and held at the end of slot start if it is begun in it.
fn is_fresh(p: Programme, start: usize, begun: &[u8; CHUNKS], line: bool, i: u16) -> bool
    requires { Within 1 500 i }
    ensures { result ≡ line && not (eqb (of begun.now i) 1) && ltb start (due_slot p i) }
{
    line && begun[i as usize - 1] != 1 && start < job::due_slot(p, i)
}

// Begun, and held at the end of slot start.
fn is_held(p: Programme, start: usize, begun: &[u8; CHUNKS], i: u16) -> bool
    requires { Within 1 500 i }
    ensures { result ≡ eqb (of begun.now i) 1 && ltb start (due_slot p i) }
{
    begun[i as usize - 1] == 1 && start < job::due_slot(p, i)
}

// How many begun chunks are held at the end of slot start.
fn count_held(p: Programme, start: usize, begun: &[u8; CHUNKS]) -> usize
    requires { Fine p }
    ensures { result ≡ held_at p start begun.now }
{
    let mut held: usize = 0;
    for i in 0..p.chunks {
        held += is_held(p, start, begun, i + 1) as usize;
    }
    held
}

// The flag of each chunk that is asked: as many in line as rule 6 allows beside all that are begun.
fn set_asked(
    p: Programme,
    start: usize,
    left: &SizeTable,
    begun: &[u8; CHUNKS],
    last: u16,
    from: u16,
    until: u16,
    asked: &mut [u8; CHUNKS],
)
    requires { Fine p }
    ensures { AskedFlags p start (table_at left.now) begun.now last from until
        p.chunks asked.new }
{
    let most = job::held_most(p) as usize;
    let mut held = count_held(p, start, begun);
    for i in 0..p.chunks {
        let line = in_line(p, start, left, begun, last, from, until, i + 1);
        let fresh = is_fresh(p, start, begun, line, i + 1);
        held += fresh as usize;
        // Not new, or with room.
        asked[i as usize] = (line & (!fresh | (held <= most))) as u8;
    }
}

// A chunk that is asked, with bytes of the layer left to fetch.
fn is_piece(flag: u8, bytes: u32) -> bool
    ensures { result ≡ eqb flag 1 && ltb 0 bytes }
{
    flag == 1 && 0 < bytes
}

// The pieces of layer n, in playing order, from place at on. Each chunk is written, and the place
// moves on only behind a piece.
fn put_layer(
    count: u16,
    n: u8,
    left: &SizeTable,
    asked: &[u8; CHUNKS],
    at: usize,
    chunks: &mut [u16; SIZES],
    layers: &mut [u8; SIZES],
    bytes: &mut SizeTable,
) -> usize
    requires { (count ≤ 500) × (n < 4) × (at + count ≤ 2000) }
    ensures { PutLayerPost (table_at left.now) asked.now n count at
        chunks.old layers.old bytes.old
        result chunks.new layers.new bytes.new }
{
    let mut w = at;
    for i in 0..count {
        let b = core_sizes::size_in(left, i + 1, n as usize);
        chunks[w] = i + 1;
        layers[w] = n;
        bytes[w] = b;
        w += is_piece(asked[i as usize], b) as usize;
    }
    w
}

// The pieces of all layers, from the base up.
fn put_pieces(
    count: u16,
    depth: u8,
    left: &SizeTable,
    asked: &[u8; CHUNKS],
    chunks: &mut [u16; SIZES],
    layers: &mut [u8; SIZES],
    bytes: &mut SizeTable,
) -> usize
    requires { (count ≤ 500) × (depth ≤ 4) }
    ensures { (result ≤ 2000)
        × PiecesStand (pieces_at (table_at left.now) asked.now count depth)
        result chunks.new layers.new bytes.new }
{
    let mut at: usize = 0;
    for n in 0..depth {
        at = put_layer(count, n, left, asked, at, chunks, layers, bytes);
    }
    at
}

// What to ask the link for in slot start at a rate: the pieces, at the start of three tables.
pub fn ask(
    p: Programme,
    depth: u8,
    start: usize,
    rate: u32,
    left: &SizeTable,
    begun: &[u8; CHUNKS],
    chunks: &mut [u16; SIZES],
    layers: &mut [u8; SIZES],
    bytes: &mut SizeTable,
) -> usize
    requires { AskPre p depth }
    ensures { AskPost p depth start rate (table_at left.now) begun.now
        result chunks.new layers.new bytes.new }
{
    let last = core_replan_decide::last_begun(p, begun);
    let from = first_lacking(p, start, left, begun, last);
    let until = passed_until(p, start, rate, left, begun, last, from);
    let mut asked = [0u8; CHUNKS];
    set_asked(p, start, left, begun, last, from, until, &mut asked);
    put_pieces(p.chunks, depth, left, &asked, chunks, layers, bytes)
}
