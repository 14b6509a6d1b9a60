// Marks counted, for n from 0 to 8 and 255: words by themselves, and marks of every length to 17
// and of 500, each count compared with one by bytes.
use core_prefix::prefix;
use std::io;
use std::rt::Files;

const LAYERS: [u8; 10] = [0, 1, 2, 3, 4, 5, 6, 7, 8, 255];

fn word_counts(rt: &impl Print, text: &str, marks: u64) -> io::Result<()> {
    print!(rt; "{text}:")?;
    for &n in &LAYERS {
        print!(rt; " {}", fetch::count_word(marks, n))?;
    }
    println!(rt;)
}

pub(crate) fn words(rt: &impl Print) -> io::Result<()> {
    word_counts(rt, "a word of ones", 0xFFFF_FFFF_FFFF_FFFF)?;
    word_counts(rt, "ones beside none", 0xFF00_FF00_FF00_FF00)?;
    word_counts(rt, "none beside ones", 0x00FF_00FF_00FF_00FF)?;
    word_counts(rt, "the highest byte", 0xFF00_0000_0000_0000)?;
    word_counts(rt, "the highest bits", 0x8080_8080_8080_8080)?;
    word_counts(rt, "a bit a byte", 0x0102_0408_1020_4080)
}

// The marks with bit n, one by one.
fn by_bytes(marks: &[u8], n: u8) -> usize {
    marks
        .iter()
        .filter(|&&mark| n < 8 && (mark >> n) & 1 == 1)
        .count()
}

// Each count, if the one by bytes is the same.
fn mark_counts(rt: &impl Print, text: &str, marks: &[u8]) -> io::Result<()> {
    print!(rt; "{} {text}:", marks.len())?;
    for &n in &LAYERS {
        let count = fetch::count_marks(marks, n);
        if count == by_bytes(marks, n) {
            print!(rt; " {count}")?;
        } else {
            print!(rt; " wrong")?;
        }
    }
    println!(rt;)
}

// The bytes of data/q00, at most 65,537, as marks. If it can't be opened it is read as empty.
fn mixed(rt: &(impl Files + Print)) -> io::Result<()> {
    let mut file = [0u8; 65537];
    let n = core_input::read_file(rt, b"q00", &mut file)?;
    println!(rt; "q00 as marks")?;
    for length in 0..18 {
        mark_counts(rt, "marks", prefix(&file, length))?;
    }
    mark_counts(rt, "marks", prefix(&file, 500))?;
    mark_counts(rt, "marks", prefix(&file, n))
}

pub(crate) fn marks(rt: &(impl Files + Print)) -> io::Result<()> {
    mixed(rt)?;
    mark_counts(rt, "of ones", &[255u8; 17])?;
    mark_counts(rt, "of ones", &[255u8; 500])
}
