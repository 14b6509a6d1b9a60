// What the link carries: 2 bytes in each slot before p; from p on a number's digits below 3 in the
// forecast handed on, and 7 bytes in the job's own, which nothing looks at.
ghost use Rattle.std.specs.Prelude.{◌≤◌};

fn digit(w: u16) -> u32 {
    (w % 3) as u32
}

pub(crate) fn onward(w: u16) -> [u32; 4] {
    [digit(w), digit(w / 3), digit(w / 9), digit(w / 27)]
}

pub(crate) fn joined(p: u16, w: u16) -> [u32; 4] {
    match p {
        1 => onward(w),
        2 => [2, digit(w), digit(w / 3), digit(w / 9)],
        3 => [2, 2, digit(w), digit(w / 3)],
        _ => [2, 2, 2, digit(w)],
    }
}

pub(crate) fn own(p: u16) -> [u32; 4] {
    match p {
        1 => [7, 7, 7, 7],
        2 => [2, 7, 7, 7],
        3 => [2, 2, 7, 7],
        _ => [2, 2, 2, 7],
    }
}

// How many forecasts of so many slots there are.
pub(crate) fn forecasts(slots: usize) -> u16
    ensures { 1 ≤ result }
{
    match slots {
        0 => 1,
        1 => 3,
        2 => 9,
        3 => 27,
        _ => 81,
    }
}

// How many forecasts of the slots before p there are.
fn earlier(p: u16) -> u16
    ensures { 1 ≤ result }
{
    if p == 0 {
        1
    } else {
        forecasts((p - 1) as usize)
    }
}

// A forecast's slots from p on.
pub(crate) fn rest(w: u16, p: u16) -> [u32; 4] {
    onward(w / earlier(p))
}
