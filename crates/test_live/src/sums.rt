// A checksum over a case and its answer: each number in turn, beside 31 times what came before,
// below 2^31 - 1.
use crate::asked::{Case, Pieces};
use refusals::Refusal;

const MODULUS: u64 = 2147483647;

fn with(sum: u64, x: u32) -> u64 {
    (sum % MODULUS * 31 + (x as u64)) % MODULUS
}

pub(crate) fn plus(a: u64, b: u64) -> u64 {
    (a % MODULUS + b % MODULUS) % MODULUS
}

// Which case it is: film, slot, rows fetched and rate, and not in which order the rows are handed.
pub(crate) fn of_case(c: Case) -> u64 {
    let f = c.film;
    with(
        with(with(u64::from(f.number), u32::from(c.p)), c.list),
        c.rate,
    )
}

pub(crate) fn of_answer(sum: u64, answer: Result<usize, Refusal>) -> u64 {
    match answer {
        Ok(n) => with(sum, (n % 1000) as u32),
        Err(refusal) => with(sum, 1000 + u32::from(refusal.number())),
    }
}

// With all that was lent, piece by piece.
pub(crate) fn of_pieces(sum: u64, pieces: &Pieces) -> u64 {
    let mut all = sum;
    for k in 0..7 {
        all = with(all, u32::from(pieces.chunks[k]));
        all = with(all, u32::from(pieces.layers[k]));
        all = with(all, pieces.bytes[k]);
    }
    all
}
