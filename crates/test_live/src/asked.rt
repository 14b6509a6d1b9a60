// The desk's call for a case of the family, and once more in the next slot, on the rows fetched and
// what the link brought of the asks.
use crate::film::Film;
use crate::lists::Room;
use crate::{film, lists, sums};
use fetch::Rows;
use job::JobInput;
use live::LentPieces;
use refusals::Refusal;

// A case: a film, the slot, the rows fetched, in either order, a rate, and how many bytes come.
#[derive(Clone, Copy)]
pub(crate) struct Case {
    pub film: Film,
    pub p: u16,
    pub list: u32,
    pub back: bool,
    pub rate: u32,
    pub came: u32,
}

// What came of it: how many pieces, if it is not refused; a checksum over the answer and all that
// was lent; whether the next slot accepts the rows with what came.
#[derive(Clone, Copy)]
pub(crate) struct Got {
    pub pieces: Option<usize>,
    pub sum: u64,
    pub accepted: bool,
}

// Room for 7 pieces, one more than there can be.
#[derive(Clone, Copy)]
pub(crate) struct Pieces {
    pub chunks: [u16; 7],
    pub layers: [u8; 7],
    pub bytes: [u32; 7],
}

fn live_into(
    job: &JobInput,
    p: u16,
    fetched: &Rows,
    rate: u32,
    pieces: &mut Pieces,
) -> Result<usize, Refusal> {
    let mut out = LentPieces {
        chunks: &mut pieces.chunks,
        layers: &mut pieces.layers,
        bytes: &mut pieces.bytes,
    };
    live::live(job, p, fetched, rate, &mut out)
}

// Each slot carries 2 bytes. What is lent holds 9s.
pub(crate) fn ask(c: Case) -> Got {
    let sizes = film::sizes_of(c.film);
    let job = film::job_of(c.film, &sizes, &[2, 2, 2, 2]);
    let mut room = lists::EMPTY;
    let n = lists::hand(c.list, c.back, 0, &mut room);
    let mut pieces = Pieces {
        chunks: [9; 7],
        layers: [9; 7],
        bytes: [9; 7],
    };
    let answer = live_into(&job, c.p, &lists::first(&room, n), c.rate, &mut pieces);
    let sum = sums::of_pieces(sums::of_answer(sums::of_case(c), answer), &pieces);
    let m = take(c, answer.unwrap_or(0), &pieces, n, &mut room);
    let fetched = lists::first(&room, m);
    let next = live_into(&job, c.p.saturating_add(1), &fetched, c.rate, &mut pieces);
    Got {
        pieces: answer.ok(),
        sum,
        accepted: next.is_ok(),
    }
}

// What comes of so many pieces, one after the other, as rows of slot p behind the first ones; the
// place after them.
fn take(c: Case, count: usize, pieces: &Pieces, at: usize, room: &mut Room) -> usize {
    let mut n = at;
    let mut left = c.came;
    for k in 0..count.min(7) {
        if 0 < left && n < 18 {
            let part = left.min(pieces.bytes[k]);
            room.slots[n] = c.p;
            room.chunks[n] = pieces.chunks[k];
            room.layers[n] = pieces.layers[k];
            room.bytes[n] = part;
            left -= part;
            n += 1;
        }
    }
    n
}
