// Words and numbers into a buffer, and the lines that are made of them alone.
ghost use Rattle.std.specs.Prelude.{[], ◌∷◌, ◌+◌, ◌/◌, ◌%◌, ◌≤◌, length};
ghost use Rattle.theory_basics.specs.Text.{ascii, digits, line};
ghost use Rattle.core_text.specs.lemmas.Places.{Put};
ghost use Rattle.report.specs.lemmas.Tables.{switch_lines};

// A number after a space.
pub(crate) fn put_next(out: &mut [u8], at: usize, n: u64) -> usize
    requires { at + length (32 ∷ digits n) ≤ length out.old }
    ensures { Put out.old at (32 ∷ digits n) out.new result }
{
    core_text::put_field(out, at, b" ", n)
}

// The end of a line.
pub(crate) fn put_end(out: &mut [u8], at: usize) -> usize
    requires { at + 1 ≤ length out.old }
    ensures { Put out.old at (10 ∷ []) out.new result }
{
    out[at] = b'\n';
    at + 1
}

// The line `slots`: d(C), C and H.
pub(crate) fn slots_line(out: &mut [u8], at: usize, last: u64, count: u64, held: u64) -> usize
    requires { at
        + length
        (line (ascii "slots") (digits last ∷ ascii "chunks" ∷ digits count ∷ ascii "held" ∷ digits held ∷ [])) ≤ length
        out.old }
    ensures { Put out.old at
        (line (ascii "slots") (digits last ∷ ascii "chunks" ∷ digits count ∷ ascii "held" ∷ digits held ∷ []))
        out.new result }
{
    let slots = core_text::put_field(out, at, b"slots ", last);
    let chunks = core_text::put_field(out, slots, b" chunks ", count);
    let end = core_text::put_field(out, chunks, b" held ", held);
    put_end(out, end)
}

// The line of a chunk.
pub(crate) fn chunk_line(out: &mut [u8], at: usize, i: u64, layers: u64, bytes: u64) -> usize
    requires { at + length (line (digits i) (digits layers ∷ digits bytes ∷ [])) ≤ length out.old }
    ensures { Put out.old at (line (digits i) (digits layers ∷ digits bytes ∷ [])) out.new result }
{
    let number = core_text::put_number(out, at, i);
    let carried = put_next(out, number, layers);
    let end = put_next(out, carried, bytes);
    put_end(out, end)
}

// The line `bytes`: bytes in rows, and forecast bytes unspent.
pub(crate) fn bytes_line(out: &mut [u8], at: usize, spent: u64, left: u64) -> usize
    requires { at + length (line (ascii "bytes") (digits spent ∷ ascii "left" ∷ digits left ∷ [])) ≤ length out.old }
    ensures { Put out.old at (line (ascii "bytes") (digits spent ∷ ascii "left" ∷ digits left ∷ []))
        out.new result }
{
    let bytes = core_text::put_field(out, at, b"bytes ", spent);
    let end = core_text::put_field(out, bytes, b" left ", left);
    put_end(out, end)
}

// The line `switch`.
fn switch_line(out: &mut [u8], at: usize, switch: u64) -> usize
    requires { at + length (line (ascii "switch") (digits switch ∷ [])) ≤ length out.old }
    ensures { Put out.old at (line (ascii "switch") (digits switch ∷ [])) out.new result }
{
    let end = core_text::put_field(out, at, b"switch ", switch);
    put_end(out, end)
}

// The switch sum by the slots of film: quotient and remainder.
fn rate_line(out: &mut [u8], at: usize, switch: u64, film: u64) -> usize
    requires { (1 ≤ film)
        × (at + length (line (ascii "rate") (digits (switch / film) ∷ digits (switch % film) ∷ [])) ≤ length out.old) }
    ensures { Put out.old at
        (line (ascii "rate") (digits (switch / film) ∷ digits (switch % film) ∷ []))
        out.new result }
{
    let whole = switch / film;
    let rest = switch % film;
    let quotient = core_text::put_field(out, at, b"rate ", whole);
    let end = put_next(out, quotient, rest);
    put_end(out, end)
}

// The lines `switch` and `rate`: the switch sum, and it divided by C x L with the remainder.
pub(crate) fn switch_lines(out: &mut [u8], at: usize, switch: u64, film: u64) -> usize
    requires { (1 ≤ film) × (at + length (switch_lines switch film) ≤ length out.old) }
    ensures { Put out.old at (switch_lines switch film) out.new result }
{
    let next = switch_line(out, at, switch);
    rate_line(out, next, switch, film)
}
