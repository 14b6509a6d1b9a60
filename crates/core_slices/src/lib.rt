// Internal. What the calls that hand over a plan share: the counts of marks, copies of what was
// laid out aside, and whether it fits.
#![tactic(auto)]

ghost use Rattle.std.specs.Prelude.{◌≡◌, ◌&&◌, ℕ, ◌≤◌, length, take, leb};
ghost use Rattle.theory_basics.specs.Lists.{up_to};
ghost use Rattle.theory_basics.specs.Lent.{over};
ghost use Rattle.fetch.specs.Counts.{mark_count};

// How many marks have layer n.
fn count_layer(marks: &[u8], n: u8) -> u16
    requires { length marks.now ≤ 500 }
    ensures { result ≡ mark_count n marks.now }
{
    fetch::count_marks(marks, n) as u16
}

// The counts of all four layers.
pub fn count_layers(marks: &[u8]) -> [u16; 4]
    requires { length marks.now ≤ 500 }
    ensures { result ≡ up_to (λ n. mark_count n marks.now) 4 }
{
    let base = count_layer(marks, 0);
    let first = count_layer(marks, 1);
    let second = count_layer(marks, 2);
    let third = count_layer(marks, 3);
    [base, first, second, third]
}

// The first n elements of one slice over those of another.
pub fn copy_over<T: Copy>(from: &[T], n: usize, to: &mut [T])
    requires { (n ≤ length from.now) × (n ≤ length to.old) }
    ensures { to.new ≡ over (take n from.now) to.old }
{
    to[..n].copy_from_slice(&from[..n]);
}

// Whether each of four lengths is at least n.
pub fn all_at_least(n: usize, a: usize, b: usize, c: usize, d: usize) -> bool
    ensures { result ≡ leb n a && (leb n b && (leb n c && leb n d)) }
{
    n <= a && n <= b && n <= c && n <= d
}
