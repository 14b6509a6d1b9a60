// Lines of one time into a buffer: one is written, then all that stand are copied behind
// themselves, so that they double.
ghost use Rattle.std.specs.Prelude.{[], ◌∷◌, ◌++◌, ◌+◌, ◌≤◌, length, take, drop, replicate};
ghost use Rattle.theory_basics.specs.Text.{digits};
ghost use Rattle.core_text.specs.lemmas.Places.{Put};
ghost use Rattle.trace.specs.Trace.{lines_bytes};

// A line, with its line feed. The place after it.
fn put_line(out: &mut [u8], at: usize, n: u64) -> usize
    requires { at + length (digits n ++ (10 ∷ [])) ≤ length out.old }
    ensures { Put out.old at (digits n ++ (10 ∷ [])) out.new result }
{
    let end = core_text::put_number(out, at, n);
    out[end] = b'\n';
    end + 1
}

// Copies n bytes that stand at a place to a later one.
fn copy_on(out: &mut [u8], from: usize, to: usize, n: usize) -> usize
    requires { (from + n ≤ to) × (to + n ≤ length out.old) }
    ensures { Put out.old to (take n (drop from out.old)) out.new result }
{
    out.copy_within(from..from + n, to);
    to + n
}

// So many lines of one time. The place after them.
pub(crate) fn put_lines(out: &mut [u8], at: usize, time: u64, count: usize) -> usize
    requires { at + length (lines_bytes (replicate count (digits time))) ≤ length out.old }
    ensures { Put out.old at (lines_bytes (replicate count (digits time))) out.new result }
{
    if count < 1 {
        return at;
    }
    let mut next = put_line(out, at, time);
    let width = next - at;
    let mut made = 1;
    while made < count {
        let more = made.min(count - made);
        next = copy_on(out, at, next, more * width);
        made += more;
    }
    next
}
