// The tables that the lines are told from: how many layers the plan carries of each chunk, and the
// bytes of the first layers of each chunk.
ghost use Rattle.std.specs.Prelude.{◌≡◌, ◌≤◌, length, drop};
ghost use Rattle.theory_basics.specs.Tests.{All};
ghost use Rattle.job.specs.Job.{Within};
ghost use Rattle.reasons.specs.lemmas.Tables.{SizesIn, Summed, layers_in, spread};

use job::{CHUNKS, LAYERS, SIZES, SizeTable};

// How many layers a mark has, of layers from the base up.
fn layers_in(mark: u8) -> u8
    ensures { result ≡ layers_in mark }
{
    if mark < 2 {
        mark
    } else if mark < 4 {
        2
    } else if mark < 8 {
        3
    } else {
        4
    }
}

// How many layers the kept chunks carry, by their marks; chunk k at k - 1.
pub(crate) fn set_levels(
    ids: &[u16; CHUNKS],
    mark: &[u8; CHUNKS],
    first: usize,
    levels: &mut [u8; CHUNKS],
)
    requires { (first ≤ 500)
        × All (Within 1 500) (drop first ids.now)
        × (length ids.now ≡ 500)
        × (length mark.now ≡ 500)
        × (length levels.old ≡ 500) }
    ensures { (length levels.new ≡ 500)
        × (levels.new ≡ spread (drop first ids.now) (drop first mark.now)
        levels.old) }
{
    for q in first..CHUNKS {
        let at = ids[q] as usize - 1;
        levels[at] = layers_in(mark[q]);
    }
}

// The bytes of the first layers of each chunk: of layers 0 to n, where the size of layer n stands.
pub(crate) fn sum_sizes(table: &SizeTable, sums: &mut SizeTable)
    requires { SizesIn table.now × (length sums.old ≡ 2000) }
    ensures { Summed table.now 2000 sums.new }
{
    for i in 0..SIZES {
        if i % LAYERS == 0 {
            sums[i] = table[i];
        } else {
            sums[i] = sums[i - 1] + table[i];
        }
    }
}
