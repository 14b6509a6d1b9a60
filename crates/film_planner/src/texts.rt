// The report, the reasons, link traces, and the shortest wait.
ghost use Rattle.std.specs.Prelude.{◌≡◌};
ghost use Rattle.wait.specs.Answer.{wait_input};
ghost use Rattle.core_ffi.specs.Convention.{film};
ghost use Rattle.core_ffi.specs.Texts.{ReasonsReturned, ReportReturned, TraceReadReturned, TraceWriteReturned};
ghost use Rattle.core_ffi.specs.Texts.{wait_answer};

use job::{JobInput, Overrides, Programme};
use wait::Film;

// `report::report` for C.
#[unsafe(no_mangle)]
pub extern "C" fn film_report(
    chunks: u16,
    span: u16,
    delay: u16,
    limit: u16,
    sizes: &[u32],
    size_chunks: &[u16],
    size_layers: &[u8],
    size_bytes: &[u32],
    forecast: &[u32],
    out: &mut [u8],
) -> u64
    ensures { ReportReturned
        (film chunks span delay limit sizes.now size_chunks.now size_layers.now
        size_bytes.now forecast.now)
        out.old result out.new }
{
    let job = JobInput {
        programme: Programme {
            chunks,
            span,
            delay,
            limit,
        },
        sizes,
        overrides: Overrides {
            chunks: size_chunks,
            layers: size_layers,
            bytes: size_bytes,
        },
        forecast,
    };
    core_ffi::number(report::report(&job, out))
}

// `reasons::reasons` for C.
#[unsafe(no_mangle)]
pub extern "C" fn film_reasons(
    chunks: u16,
    span: u16,
    delay: u16,
    limit: u16,
    sizes: &[u32],
    size_chunks: &[u16],
    size_layers: &[u8],
    size_bytes: &[u32],
    forecast: &[u32],
    out: &mut [u8],
) -> u64
    ensures { ReasonsReturned
        (film chunks span delay limit sizes.now size_chunks.now size_layers.now
        size_bytes.now forecast.now)
        out.old result out.new }
{
    let job = JobInput {
        programme: Programme {
            chunks,
            span,
            delay,
            limit,
        },
        sizes,
        overrides: Overrides {
            chunks: size_chunks,
            layers: size_layers,
            bytes: size_bytes,
        },
        forecast,
    };
    core_ffi::number(reasons::reasons(&job, out))
}

// `trace::read_trace` for C.
#[unsafe(no_mangle)]
pub extern "C" fn film_read_trace(trace: &[u8], slots: usize, forecast: &mut [u32]) -> u64
    ensures { TraceReadReturned
        trace.now slots forecast.old result forecast.new }
{
    core_ffi::number(trace::read_trace(trace, slots, forecast))
}

// `trace::write_trace` for C.
#[unsafe(no_mangle)]
pub extern "C" fn film_write_trace(forecast: &[u32], out: &mut [u8]) -> u64
    ensures { TraceWriteReturned forecast.now out.old result out.new }
{
    core_ffi::number(trace::write_trace(forecast, out))
}

// `wait::wait` for C.
#[unsafe(no_mangle)]
pub extern "C" fn film_wait(
    chunks: u16,
    span: u16,
    limit: u16,
    sizes: &[u32],
    size_chunks: &[u16],
    size_layers: &[u8],
    size_bytes: &[u32],
    forecast: &[u32],
) -> u64
    ensures { result ≡ wait_answer
        (wait_input chunks span limit sizes.now size_chunks.now size_layers.now
        size_bytes.now forecast.now) }
{
    let film = Film {
        chunks,
        span,
        limit,
        sizes,
        overrides: Overrides {
            chunks: size_chunks,
            layers: size_layers,
            bytes: size_bytes,
        },
        forecast,
    };
    core_ffi::number(wait::wait(&film).map(usize::from))
}
