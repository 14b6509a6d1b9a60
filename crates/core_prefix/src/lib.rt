// The first n elements of a slice, or all where there are fewer: what the programs hand on of their
// buffers.
#![tactic(auto)]

ghost use Rattle.std.specs.Prelude.{◌≡◌, take};

// The first n elements.
pub fn prefix<T>(s: &[T], n: usize) -> &[T]
    ensures { result.now ≡ take n s.now }
{
    &s[..n.min(s.len())]
}
