// The sums of a list's layers.
ghost use Rattle.std.specs.Prelude.{◌≤◌};

use job::{SIZES, SizeTable};

// What rule 2 goes by: the table of all sizes, how many layers there are, and the sums of the rows
// of each.
#[derive(Clone, Copy)]
pub(crate) struct Sums<'a> {
    pub(crate) table: &'a SizeTable,
    pub(crate) depth: usize,
    pub(crate) layers: &'a [u64; SIZES],
    ghost few_layers: { depth ≤ 4 },
}
