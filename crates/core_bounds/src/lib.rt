// Internal. The two bounds on the bases that a fetch list can carry (theory_most, Statement). Both
// go by rows of needs: for each c, how much of the forecast, counted from its end, c bases need at
// least. In any order one row is enough; in playing order the search reads every row, so they stand
// in the caller's work slice, 501 numbers to a row.
#![tactic(auto)]

ghost use Rattle.std.specs.Prelude.{◌≡◌, ◌≤◌, length, get_or, leb};
ghost use Rattle.core_sizes.specs.Table.{table_at};
ghost use Rattle.theory_most.specs.Statement.{largest};
ghost use Rattle.core_bounds.specs.lemmas.Tables.{ClearRowPost, CutAbovePost, InFrontPost, RowPre};
ghost use Rattle.core_bounds.specs.lemmas.Tables.{AnyOrderPost, BoundPre, FillRowPost, FillRowPre};
ghost use Rattle.core_bounds.specs.lemmas.Tables.{InOrderPost, InOrderPre};

use job::{Programme, SizeTable, SlotSums};

// Numbers in a row: the needs of 0 to 500 bases.
const ROW: usize = 501;

// The row of no chunks: no base needs nothing, and more than that cannot be.
fn clear_row(none: u64, row: &mut [u64])
    requires { length row.old ≡ 501 }
    ensures { ClearRowPost none row.new }
{
    row.fill(none);
    row[0] = 0;
}

// One chunk more, in front of the others or left out. left: what is forecast after its due slot.
fn put_in_front(base: u64, left: u64, count: usize, row: &mut [u64; ROW])
    requires { RowPre base left count row.old }
    ensures { InFrontPost base left count row.old row.new }
{
    for c in (0..count).rev() {
        let with = base + left.max(row[c]);
        row[c + 1] = row[c + 1].min(with);
    }
}

// The most bases, up to so many, that need no more than a level.
fn most_within(row: &[u64], count: usize, level: u64) -> usize
    requires { (count ≤ 500) × (501 ≤ length row.now) }
    ensures { result ≡ largest (λ c. leb (get_or row.now c 0) level) count }
{
    for c in (1..=count).rev() {
        if row[c] <= level {
            return c;
        }
    }
    0
}

// More bases than `most` cannot be.
fn cut_above(none: u64, most: usize, count: usize, row: &mut [u64; ROW])
    requires { count ≤ 500 }
    ensures { CutAbovePost none most count row.old row.new }
{
    if most < count {
        row[most + 1..count + 1].fill(none);
    }
}

// The bound in any order.
pub fn any_order(p: Programme, table: &SizeTable, after: &SlotSums) -> usize
    requires { BoundPre p (table_at table.now) after.now }
    ensures { AnyOrderPost p (table_at table.now) after.now result }
{
    let held = job::held_most(p) as usize;
    let count = p.chunks as usize;
    let none = after[0] + 1;
    let mut row = [0u64; ROW];
    clear_row(none, &mut row);
    for i in (0..p.chunks).rev() {
        let k = i + 1;
        let d = job::due_slot(p, k);
        let base = core_sizes::size_in(table, k, 0);
        put_in_front(u64::from(base), after[d], count, &mut row);
        let most = held + most_within(&row, count, after[d - 1]);
        cut_above(none, most, count, &mut row);
    }
    most_within(&row, count, after[0])
}

// The row of the chunks behind i, from the next row and from the row H places on. left and late:
// what is forecast after the due slot of chunk i + 1, and after the slot before it.
fn fill_row(
    i: usize,
    count: usize,
    held: usize,
    base: u64,
    left: u64,
    late: u64,
    none: u64,
    work: &mut [u64],
)
    requires { FillRowPre i count held base left work.old }
    ensures { FillRowPost i count held base left late none work.old work.new }
{
    let here = i * ROW;
    let next = here + ROW;
    let far = (i + held).min(count) * ROW;
    work[here] = 0;
    for c in 0..count {
        let more = c + 1;
        let with = base + left.max(work[next + c]);
        // The chunk is kept if those from H places behind it on fit.
        let behind = work[far + more.saturating_sub(held)];
        let kept = if behind <= late { with } else { none };
        work[here + more] = work[next + more].min(kept);
    }
}

// Fills the rows behind each chunk, 0 to C, into the work slice, and returns the bound in playing
// order.
pub fn in_order(p: Programme, table: &SizeTable, after: &SlotSums, work: &mut [u64]) -> usize
    requires { InOrderPre p (table_at table.now) after.now work.old }
    ensures { InOrderPost p (table_at table.now) after.now result
        work.old work.new }
{
    let held = job::held_most(p) as usize;
    let count = p.chunks as usize;
    let none = after[0] + 1;
    let last = count * ROW;
    let end = last + ROW;
    clear_row(none, &mut work[last..end]);
    for i in (0..p.chunks).rev() {
        let k = i + 1;
        let d = job::due_slot(p, k);
        let base = core_sizes::size_in(table, k, 0);
        fill_row(
            i as usize,
            count,
            held,
            u64::from(base),
            after[d],
            after[d - 1],
            none,
            work,
        );
    }
    most_within(work, count, after[0])
}
