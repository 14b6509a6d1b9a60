// A checksum over a case and its answer: each number in turn, beside 31 times what came before,
// below 2^31 - 1.
use crate::asked::Case;
use fetch::Rows;
use planner::Planned;
use refusals::Refusal;

const MODULUS: u64 = 2147483647;

fn with(sum: u64, x: u32) -> u64 {
    (sum % MODULUS * 31 + (x as u64)) % MODULUS
}

pub(crate) fn plus(a: u64, b: u64) -> u64 {
    (a % MODULUS + b % MODULUS) % MODULUS
}

// Which case it is: film, slot, rows fetched and forecast, and not in which order the rows are
// handed.
pub(crate) fn of_case(c: Case) -> u64 {
    let f = c.film;
    with(
        with(with(u64::from(f.number), u32::from(c.p)), c.list),
        u32::from(c.w),
    )
}

// With the answer, the marks and the counts, which are 0 beside a refusal.
pub(crate) fn of_answer(sum: u64, answer: Result<Planned, Refusal>, marks: [u8; 3]) -> u64 {
    match answer {
        Ok(plan) => {
            let numbered = with(sum, (plan.rows % 1000) as u32);
            with(with(numbered, word_of(marks)), counts_of(plan.counts))
        }
        Err(refusal) => {
            let numbered = with(sum, 1000 + u32::from(refusal.number()));
            with(with(numbered, word_of(marks)), 0)
        }
    }
}

// With rows, row by row.
pub(crate) fn of_rows(sum: u64, rows: &Rows) -> u64 {
    let mut all = sum;
    let places = rows.slots.iter().zip(rows.chunks);
    let pieces = rows.layers.iter().zip(rows.bytes);
    for ((&slot, &chunk), (&layer, &bytes)) in places.zip(pieces) {
        all = with(with(all, u32::from(slot)), u32::from(chunk));
        all = with(with(all, u32::from(layer)), bytes);
    }
    all
}

// Four bits a chunk.
pub(crate) fn word_of(marks: [u8; 3]) -> u32 {
    let [a, b, c] = marks;
    u32::from(a % 16) + 16 * u32::from(b % 16) + 256 * u32::from(c % 16)
}

// Four bits a layer.
fn counts_of(counts: [u16; 4]) -> u32 {
    let [a, b, c, d] = counts;
    u32::from(a % 16) + 16 * u32::from(b % 16) + 256 * u32::from(c % 16) + 4096 * u32::from(d % 16)
}
