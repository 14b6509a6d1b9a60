// The link meter of document 01: the last ten samples of the link by value, a forecast from them,
// and one thin function that brings a lent meter up to date in its own storage. Refusals 10, 12 and
// 13.
#![tactic(auto)]

ghost use Rattle.std.specs.Prelude.{◌≡◌, ◌≤◌, ◌<◌};
ghost use Rattle.meter.specs.lemmas.Cells.{next_cells};
ghost use Rattle.meter.specs.Forecast.{share, bytes_of, forecast_of};
ghost use Rattle.meter.specs.Calls.{ForecastPromise};
ghost use Rattle.meter.specs.Meter.{sample, samples_of, storing, empty, in_range, in_order, last_sample_slot};
ghost use Rattle.meter.specs.Meter.{with_sample, take_answer, InOrder, UpdatePromise};
ghost use Rattle.refusals.specs.Numbers.{by_number};

use refusals::Refusal;

// Ten cells, the first `kept` of which hold a sample each, a slot and its bytes, the newest last.
// Kept: the C interface hands a meter over in this layout, two arrays and a count.
#[derive(Clone, Copy)]
pub struct Meter {
    pub slots: [u16; 10],
    pub bytes: [u32; 10],
    pub kept: u8,
}

// A sample in range: slot 1 to 65,535, bytes 0 to 16,777,216.
fn in_range(slot: u16, bytes: u32) -> bool
    ensures { result ≡ in_range (sample slot bytes) }
{
    slot != 0 && bytes <= 16777216
}

// What refusal 10 asks of the kept samples.
fn in_order(m: Meter) -> bool
    ensures { result ≡ in_order (samples_of m) }
{
    if 10 < m.kept {
        return false;
    }
    let mut before = 0;
    for i in 0..m.kept as usize {
        let slot = m.slots[i];
        if !in_range(slot, m.bytes[i]) || slot <= before {
            return false;
        }
        before = slot;
    }
    true
}

// The slot of the last sample, 0 without samples.
fn last_slot(m: Meter) -> u16
    requires { m.kept ≤ 10 }
    ensures { result ≡ last_sample_slot 0 (samples_of m) }
{
    if m.kept == 0 {
        0
    } else {
        m.slots[m.kept as usize - 1]
    }
}

// Ten cells with one more: it goes into the cell `at`; where all ten are kept, each moves by one
// and it comes last.
fn next_cells<T: Copy>(cells: [T; 10], at: usize, v: T) -> [T; 10]
    requires { at ≤ 10 }
    ensures { result ≡ next_cells cells at v }
{
    if at < 10 {
        let mut next = cells;
        next[at] = v;
        next
    } else {
        let [_, b, c, d, e, f, g, h, i, j] = cells;
        [b, c, d, e, f, g, h, i, j, v]
    }
}

// The sample comes last; where ten are kept, the oldest goes.
fn keep(m: Meter, slot: u16, bytes: u32) -> Meter
    requires { m.kept ≤ 10 }
    ensures { result ≡ storing (with_sample (samples_of m) (sample slot bytes)) m }
{
    let at = m.kept as usize;
    Meter {
        slots: next_cells(m.slots, at, slot),
        bytes: next_cells(m.bytes, at, bytes),
        kept: (m.kept + 1).min(10),
    }
}

// 2^56, of which each sample gives its share.
const WHOLE: u64 = 72057594037927936;

// 2^56 / bytes rounded up, so that no forecast is above the mean: the only rounding of a sample.
fn share(bytes: u32) -> u64
    requires { 0 < bytes }
    ensures { result ≡ share bytes }
{
    WHOLE.div_ceil(u64::from(bytes))
}

// The forecast of a meter in order that keeps samples.
fn mean(m: Meter) -> u32
    requires { InOrder (samples_of m) × (0 < m.kept) }
    ensures { result ≡ forecast_of (bytes_of (samples_of m)) }
{
    let mut sum: u64 = 0;
    for bytes in &m.bytes[..m.kept as usize] {
        if *bytes == 0 {
            return 0;
        }
        sum += share(*bytes);
    }
    (u64::from(m.kept) * WHOLE / sum) as u32
}

// A meter without samples.
pub fn new() -> Meter
    ensures { result ≡ empty }
{
    Meter {
        slots: [0; 10],
        bytes: [0; 10],
        kept: 0,
    }
}

// A sample by value: the meter after it, or the refusal, 10 or 13.
pub fn take(m: Meter, slot: u16, bytes: u32) -> Result<Meter, Refusal>
    ensures { by_number result ≡ take_answer m slot bytes }
{
    if !in_range(slot, bytes) || !in_order(m) {
        Err(Refusal::Sample)
    } else if slot <= last_slot(m) {
        Err(Refusal::LateSample)
    } else {
        Ok(keep(m, slot, bytes))
    }
}

// The forecast by value: the bytes of a slot, or the refusal, 10 or 12.
pub fn forecast(m: Meter) -> Result<u32, Refusal>
    ensures { ForecastPromise m result }
{
    if !in_order(m) {
        Err(Refusal::Sample)
    } else if m.kept == 0 {
        Err(Refusal::NoSamples)
    } else {
        Ok(mean(m))
    }
}

// "The meter lent by the link reader is brought up to date in its own storage." The lent meter is
// then the one that `take` answers; on a refusal it stays as it was.
pub fn update(m: &mut Meter, slot: u16, bytes: u32) -> Result<(), Refusal>
    ensures { UpdatePromise m.old slot bytes result m.new }
{
    *m = take(*m, slot, bytes)?;
    Ok(())
}
