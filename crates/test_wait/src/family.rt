// All films of the family, each asked once and tried with a plan for every s.
use crate::plans;
use crate::plans::equal_film;
use crate::tally::{Tally, count};
use core_prefix::prefix;
use refusals::Refusal;
use wait::Film;

fn digit(f: u16) -> u32 {
    (f % 3) as u32
}

// The film numbered k, with a forecast of so many slots; the forecast is k / 48 in digits below 3.
fn one_film(k: u16, slots: usize, tally: &mut Tally) {
    let f = k / 48;
    let forecast = [
        digit(f),
        digit(f / 3),
        digit(f / 9),
        digit(f / 27),
        digit(f / 81),
    ];
    let sizes = [1 + (k / 24 % 2) as u32];
    let film = equal_film(
        1 + k % 3,
        1 + k / 3 % 2,
        k / 6 % 4,
        &sizes,
        prefix(&forecast, slots),
    );
    trial(&film, tally);
}

fn trial(film: &Film, tally: &mut Tally) {
    let found = plans::try_all(film);
    count(&mut tally.films, true);
    count(&mut tally.none_held, film.limit < film.span);
    count(&mut tally.worse, found.worse);
    match wait::wait(film) {
        Ok(s) => {
            count(&mut tally.first, s == 1);
            count(&mut tally.later, 1 < s);
            count(&mut tally.last, s == found.tried);
            count(&mut tally.same, found.first == Some(s));
        }
        // No other refusal comes here.
        Err(refusal) => {
            let none = refusal == Refusal::NoWait;
            count(&mut tally.none_works, none && 0 < found.tried);
            count(&mut tally.too_short, none && found.tried == 0);
            count(&mut tally.same, none && found.first.is_none());
        }
    }
}

// The films numbered below so many, with forecasts of so many slots.
fn of_length(slots: usize, numbers: u16, tally: &mut Tally) {
    for k in 0..numbers {
        one_film(k, slots, tally);
    }
}

// 48 films without a forecast, and 3 to the number of slots forecasts.
pub(crate) fn every_film(tally: &mut Tally) {
    of_length(1, 144, tally);
    of_length(2, 432, tally);
    of_length(3, 1296, tally);
    of_length(4, 3888, tally);
    of_length(5, 11664, tally);
}
