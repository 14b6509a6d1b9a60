// Internal. The table of all sizes, which a call fills once, and a size out of it: `size_at` tests
// for every chunk and layer there is; `size_in`, for a chunk and a layer that have a place in it,
// is one read without a test.
#![tactic(auto)]

ghost use Rattle.std.specs.Prelude.{◌≡◌, ◌≤◌, ◌<◌};
ghost use Rattle.job.specs.Job.{Within};
ghost use Rattle.job.specs.Handed.{handed_overrides};
ghost use Rattle.core_sizes.specs.Table.{spot, own_sizes, overridden_by, sizes_table, table_at};

use job::{JobInput, LAYERS, Overrides, SIZES, SizeTable};

// Where layer n of chunk i stands in the table of sizes.
fn spot_of(i: u16, n: usize) -> usize
    requires { n ≤ 255 }
    ensures { result ≡ spot i n }
{
    (i as usize).saturating_sub(1) * LAYERS + n
}

// The layers' own sizes, for 500 chunks: chunk 1's are read, and each other chunk's are copied from
// those of the one before it, which takes a word of four numbers at a time.
fn fill_own(sizes: &[u32], table: &mut SizeTable)
    ensures { table.new ≡ own_sizes sizes.now }
{
    for n in 0..LAYERS {
        table[n] = job::own_size(sizes, n);
    }
    for k in LAYERS..SIZES {
        table[k] = table[k - LAYERS];
    }
}

// The SZs, from the last to the first. One that has no place is not written.
fn write_over(overrides: &Overrides, table: &mut SizeTable)
    ensures { table.new ≡ overridden_by (handed_overrides overrides.now) table.old }
{
    for i in (0..overrides.whole()).rev() {
        let at = spot_of(overrides.chunks[i], overrides.layers[i] as usize);
        if at < SIZES {
            table[at] = overrides.bytes[i];
        }
    }
}

// The table of all sizes, which a call fills once: read it by size_at.
pub fn fill_sizes(job: &JobInput, table: &mut SizeTable)
    ensures { table.new ≡ sizes_table job.now.sizes.now (handed_overrides job.now.overrides) }
{
    fill_own(job.sizes, table);
    write_over(&job.overrides, table);
}

// The bytes of layer n of chunk i, out of the table of all sizes. For an accepted job this is its
// size, for every chunk and layer.
pub fn size_at(table: &SizeTable, i: u16, n: usize) -> u32
    ensures { result ≡ table_at table.now i n }
{
    if n < LAYERS {
        let at = spot_of(i, n);
        if at < SIZES { table[at] } else { table[n] }
    } else {
        0
    }
}

// The size of layer n of chunk i, for a chunk and a layer of the job.
pub fn size_in(table: &SizeTable, i: u16, n: usize) -> u32
    requires { Within 1 500 i × (n < 4) }
    ensures { result ≡ table_at table.now i n }
{
    let at = (i as usize - 1) * LAYERS + n;
    table[at]
}
