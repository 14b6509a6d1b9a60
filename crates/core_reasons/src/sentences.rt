// A sentence of either kind into a buffer.
ghost use Rattle.std.specs.Prelude.{◌++◌, ◌+◌, ◌≤◌, length};
ghost use Rattle.theory_basics.specs.Text.{digits};
ghost use Rattle.theory_reasons.specs.Statement.{sentence, lower};
ghost use Rattle.core_text.specs.lemmas.Places.{Put};
ghost use Rattle.core_reasons.specs.lemmas.Sentences.{short_of};

use crate::passes::Stretch;

// Two words, each with a number after it.
fn put_two(out: &mut [u8], at: usize, word: &[u8], n: u64, other: &[u8], m: u64) -> usize
    requires { at + length ((word.now ++ digits n) ++ (other.now ++ digits m)) ≤ length out.old }
    ensures { Put out.old at ((word.now ++ digits n) ++ (other.now ++ digits m))
        out.new result }
{
    let next = core_text::put_field(out, at, word, n);
    core_text::put_field(out, next, other, m)
}

// The sentence `chunk 1 layer 0: slots 2 to 4 carry 1, need 2`.
pub(crate) fn put_short(out: &mut [u8], at: usize, chunk: u64, layer: u64, s: Stretch) -> usize
    requires { at + length (sentence (short_of chunk layer s)) ≤ length out.old }
    ensures { Put out.old at (sentence (short_of chunk layer s)) out.new result }
{
    let first = s.first as u64;
    let last = s.last as u64;
    let slots = put_two(out, at, b"chunk ", chunk, b" layer ", layer);
    let bytes = put_two(out, slots, b": slots ", first, b" to ", last);
    let end = put_two(out, bytes, b" carry ", s.carry, b", need ", s.need);
    core_text::put_word(out, end, b"\n")
}

// The sentence `chunk 1 layer 1: layer 0 is missing`.
pub(crate) fn put_lower(out: &mut [u8], at: usize, chunk: u64, layer: u64, below: u64) -> usize
    requires { at + length (sentence (lower chunk layer below)) ≤ length out.old }
    ensures { Put out.old at (sentence (lower chunk layer below)) out.new result }
{
    let missing = put_two(out, at, b"chunk ", chunk, b" layer ", layer);
    let end = core_text::put_field(out, missing, b": layer ", below);
    core_text::put_word(out, end, b" is missing\n")
}
