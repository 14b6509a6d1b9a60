// Words and numbers as text at a place of a lent buffer, for the crates that write text. Internal:
// what is written has to fit.
#![tactic(auto)]

ghost use Rattle.std.specs.Prelude.{◌++◌, ◌+◌, ◌≤◌, length};
ghost use Rattle.theory_basics.specs.Text.{digits};
ghost use Rattle.core_text.specs.lemmas.Places.{Put};

// The digits of n go to out at a place. The place after them.
pub fn put_number(out: &mut [u8], at: usize, n: u64) -> usize
    requires { at + length (digits n) ≤ length out.old }
    ensures { Put out.old at (digits n) out.new result }
{
    if n < 10 {
        out[at] = b'0' + n as u8;
        at + 1
    } else {
        let next = put_number(out, at, n / 10);
        out[next] = b'0' + (n % 10) as u8;
        next + 1
    }
}

// A word goes to out at a place. The place after it.
pub fn put_word(out: &mut [u8], at: usize, word: &[u8]) -> usize
    requires { at + length word.now ≤ length out.old }
    ensures { Put out.old at word.now out.new result }
{
    records::put(out, at, word);
    at + word.len()
}

// A word, and a number after it.
pub fn put_field(out: &mut [u8], at: usize, word: &[u8], n: u64) -> usize
    requires { at + length (word.now ++ digits n) ≤ length out.old }
    ensures { Put out.old at (word.now ++ digits n) out.new result }
{
    let next = put_word(out, at, word);
    put_number(out, next, n)
}
