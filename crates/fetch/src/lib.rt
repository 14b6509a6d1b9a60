// Marks, a byte a chunk, whose bit n says that the chunk has layer n; and in `handed` fetch lists
// and slots as calls hand them over.
#![tactic(auto)]

ghost use Rattle.std.specs.Prelude.{◌≡◌, ◌+◌, ◌*◌, ◌^◌, ◌≤◌, ◌<◌, length, drop, count_by};
ghost use Rattle.fetch.specs.Marks.{bit, with_layer, without_layer};
ghost use Rattle.fetch.specs.Counts.{CountMarksPromise, word_count, word_of, over_words, over_rest};
ghost use Rattle.fetch.specs.lemmas.Counts.{eight};

mod handed;

pub use handed::{FetchList, LentList, Rows, accept_list, accept_slot};

// Whether bit n of a mark byte is set. A byte has no bit 8 or above.
pub fn has(mark: u8, n: u8) -> bool
    ensures { result ≡ bit mark n }
{
    n < 8 && (mark >> n) & 1 == 1
}

// The mark byte with layer n set; for n of 8 or above, the byte itself.
pub fn with(mark: u8, n: u8) -> u8
    ensures { result ≡ with_layer mark n }
{
    if n < 8 { mark | (1 << n) } else { mark }
}

// The mark byte with layer n cleared.
pub fn without(mark: u8, n: u8) -> u8
    ensures { result ≡ without_layer mark n }
{
    if n < 8 { mark & !(1 << n) } else { mark }
}

// How many of a word's eight bytes have bit n set, for n from 0 to 7, and 0 above. Shifted and
// masked, each byte is 0 or 1, so that no count runs into the next byte; the compiler sums them by
// one multiplication.
pub fn count_word(word: u64, n: u8) -> u8
    ensures { result ≡ word_count word n }
{
    if 7 < n {
        return 0;
    }
    let marked = (word >> n) & 0x0101_0101_0101_0101;
    marked.count_ones() as u8
}

// A byte below the others.
fn below(byte: u8, others: u64) -> u64
    requires { others < 2 ^ 56 }
    ensures { (result ≡ byte + 256 * others) × (byte < 256) }
{
    (byte as u64) + 256 * others
}

// Eight marks from a place on, together as a word; the compiler makes one load of it.
fn word_at(marks: &[u8], at: usize) -> u64
    requires { at + 8 ≤ length marks.now }
    ensures { result ≡ word_of (eight marks.now at) }
{
    let h = below(marks[at + 7], 0);
    let g = below(marks[at + 6], h);
    let f = below(marks[at + 5], g);
    let e = below(marks[at + 4], f);
    let d = below(marks[at + 3], e);
    let c = below(marks[at + 2], d);
    let b = below(marks[at + 1], c);
    below(marks[at], b)
}

// The sum over words: the whole eights of marks.
fn count_words(marks: &[u8], n: u8) -> usize
    ensures { result ≡ over_words n marks.now }
{
    let mut sum: usize = 0;
    for k in 0..marks.len() / 8 {
        sum += count_word(word_at(marks, k * 8), n) as usize;
    }
    sum
}

// How many marks from a place on have layer n, one by one.
fn count_from(marks: &[u8], from: usize, n: u8) -> usize
    requires { from ≤ length marks.now }
    ensures { result ≡ count_by (λ m. bit m n) (drop from marks.now) }
{
    marks[from..].iter().filter(|&&m| has(m, n)).count()
}

// The sum over the odd rest, by bytes.
fn count_rest(marks: &[u8], n: u8) -> usize
    ensures { result ≡ over_rest n marks.now }
{
    count_from(marks, marks.len() / 8 * 8, n)
}

// How many marks have layer n, for marks of any length: eight at once, and the odd rest by bytes.
pub fn count_marks(marks: &[u8], n: u8) -> usize
    ensures { CountMarksPromise marks.now n result }
{
    count_words(marks, n) + count_rest(marks, n)
}
