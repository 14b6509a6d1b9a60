// Link traces from the test van, read and written: document 02, request 4. The reader goes once
// over the trace, with a local table of counts that stop at 11,185, one above what a slot may have;
// nothing is written before the last refusal.
#![tactic(auto)]

use job::{MOST_BYTES, SLOTS};
use refusals::Refusal;

mod repeated;

ghost use Rattle.std.specs.Prelude.{◌≡◌, true, ◌+◌, ◌*◌, ◌≤◌, ◌<◌, length, take};
ghost use Rattle.theory_basics.specs.Lent.{over};
ghost use Rattle.theory_basics.specs.Tests.{all};
ghost use Rattle.theory_basics.specs.Text.{digits};
ghost use Rattle.core_text.specs.lemmas.Places.{Put};
ghost use Rattle.trace.specs.Answer.{TraceReadPromise, TraceWritePromise};
ghost use Rattle.trace.specs.Trace.{trace_of, writable};
ghost use Rattle.trace.specs.lemmas.Passes.{Counted, DigitsRead, few_lines, lines_forecast};
ghost use Rattle.trace.specs.lemmas.Tally.{bump, width_from};

// The number that digits say, and the place after them.
#[derive(Clone, Copy)]
struct Digits {
    pub value: u32,
    pub next: usize,
}

// A line is counted in the slot of its time; a time after the last slot changes nothing.
fn count_line(counts: &mut [u32; SLOTS], time: u32)
    ensures { counts.new ≡ bump 11185 counts.old time }
{
    let k = (time / 1000) as usize;
    if k < SLOTS {
        counts[k] = counts[k].min(11184) + 1;
    }
}

// The digits from a place on, up to an end.
fn digits_from(trace: &[u8], from: usize, end: usize) -> Digits
    requires { (from ≤ end) × (end ≤ from + 7) × (end ≤ length trace.now) }
    ensures { DigitsRead trace.now from end result.value result.next }
{
    let mut value = 0;
    for next in from..end {
        let b = trace[next];
        if !b.is_ascii_digit() {
            return Digits { value, next };
        }
        value = value * 10 + u32::from(b - b'0');
    }
    Digits { value, next: end }
}

// The whole trace, line by line, each in its slot; whether no line is refused. t is the time
// before. No more than seven digits are read, so that an eighth stands where the line feed should.
fn count_lines(trace: &[u8], counts: &mut [u32; SLOTS]) -> bool
    ensures { Counted trace.now counts.old counts.new result }
{
    let mut i: usize = 0;
    let mut t: u32 = 0;
    while i < trace.len() {
        let end = trace.len().min(i + 7);
        let Digits { value: time, next } = digits_from(trace, i, end);
        if next <= i || trace.len() <= next || trace[next] != b'\n' || time < t {
            return false;
        }
        count_line(counts, time);
        t = time;
        i = next + 1;
    }
    true
}

// Whether the first so many counts are lines of at most 16,777,216 bytes.
fn few_lines(counts: &[u32; SLOTS], slots: usize) -> bool
    requires { slots ≤ 3600 }
    ensures { result ≡ few_lines (take slots counts.now) }
{
    counts[..slots].iter().all(|n| *n <= 11184)
}

// 1,500 bytes for each line.
fn put_forecast(counts: &[u32; SLOTS], slots: usize, out: &mut [u32])
    requires { (slots ≤ 3600)
        × (slots ≤ length out.old)
        × (few_lines (take slots counts.now) ≡ true) }
    ensures { out.new ≡ over (lines_forecast (take slots counts.now)) out.old }
{
    for k in 0..slots {
        out[k] = counts[k] * 1500;
    }
}

// The forecast of so many slots that a trace gives. Refused: 7, 14, 15, then 11 exactly if out has
// fewer places than slots.
pub fn read_trace(trace: &[u8], slots: usize, out: &mut [u32]) -> Result<usize, Refusal>
    ensures { TraceReadPromise trace.now slots out.old result out.new }
{
    if slots < 1 || SLOTS < slots {
        return Err(Refusal::Forecast);
    }
    let mut counts = [0u32; SLOTS];
    if !count_lines(trace, &mut counts) {
        return Err(Refusal::TraceLine);
    }
    if !few_lines(&counts, slots) {
        return Err(Refusal::TraceSlot);
    }
    if out.len() < slots {
        return Err(Refusal::ShortBuffer);
    }
    put_forecast(&counts, slots, out);
    Ok(slots)
}

// At most 16,777,216 bytes, and whole lines.
fn is_writable(b: u32) -> bool
    ensures { result ≡ writable b }
{
    b <= MOST_BYTES && b % 1500 == 0
}

// Every slot is a multiple of 1,500 bytes within range.
fn all_writable(forecast: &[u32]) -> bool
    ensures { result ≡ all writable forecast.now }
{
    forecast.iter().all(|b| is_writable(*b))
}

// The bytes of a line of the slot after t, with its line feed.
fn line_width(t: usize) -> usize
    requires { t < 3600 }
    ensures { (result ≡ length (digits (t * 1000)) + 1) × (result ≤ 8) }
{
    match t {
        0 => 2,
        1..=9 => 5,
        10..=99 => 6,
        100..=999 => 7,
        _ => 8,
    }
}

// The bytes of all lines.
fn width(forecast: &[u32]) -> usize
    requires { length forecast.now ≤ 3600 }
    ensures { result ≡ width_from 0 forecast.now }
{
    let mut sum = 0;
    for (t, bytes) in forecast.iter().enumerate() {
        sum += (bytes / 1500) as usize * line_width(t);
    }
    sum
}

// The whole trace, where it fits.
fn put_trace(forecast: &[u32], out: &mut [u8]) -> usize
    requires { (length forecast.now ≤ 3600) × (length (trace_of forecast.now) ≤ length out.old) }
    ensures { Put out.old 0 (trace_of forecast.now) out.new result }
{
    let mut next = 0;
    for (t, bytes) in forecast.iter().enumerate() {
        let time = (t * 1000) as u64;
        next = repeated::put_lines(out, next, time, (bytes / 1500) as usize);
    }
    next
}

// The trace of a forecast, each slot's lines at its first millisecond. Refused: 7, 15, then 11
// exactly if out is shorter than the trace.
pub fn write_trace(forecast: &[u32], out: &mut [u8]) -> Result<usize, Refusal>
    ensures { TraceWritePromise forecast.now out.old result out.new }
{
    if forecast.is_empty() || SLOTS < forecast.len() {
        return Err(Refusal::Forecast);
    }
    if !all_writable(forecast) {
        return Err(Refusal::TraceSlot);
    }
    if out.len() < width(forecast) {
        return Err(Refusal::ShortBuffer);
    }
    Ok(put_trace(forecast, out))
}
