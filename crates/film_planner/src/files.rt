// Job and plan files.
ghost use Rattle.std.specs.Prelude.{[]};
ghost use Rattle.fetch.specs.Slices.{slices_of};
ghost use Rattle.jobrecords.specs.Reader.{buffers};
ghost use Rattle.jobrecords.specs.Refusal.{mixed, one_sequence};
ghost use Rattle.core_ffi.specs.Convention.{film};
ghost use Rattle.core_ffi.specs.Files.{JobReadReturned, JobWriteReturned, PlanReadReturned, PlanWriteReturned, job_room};

use fetch::{FetchList, LentList, Rows};
use job::{JobInput, Overrides, Programme};
use jobrecords::LentJob;

// `jobfile::read_job` for C.
#[unsafe(no_mangle)]
pub extern "C" fn film_read_job(
    file: &[u8],
    programme: &mut [u16],
    lengths: &mut [u64],
    sizes: &mut [u32],
    size_chunks: &mut [u16],
    size_layers: &mut [u8],
    size_bytes: &mut [u32],
    forecast: &mut [u32],
) -> u64
    ensures { JobReadReturned one_sequence file.now
        (job_room
        (buffers sizes.old size_chunks.old size_layers.old
        size_bytes.old forecast.old)
        programme.old lengths.old)
        result
        (job_room
        (buffers sizes.new size_chunks.new size_layers.new
        size_bytes.new forecast.new)
        programme.new lengths.new) }
{
    let mut room = LentJob {
        sizes,
        chunks: size_chunks,
        layers: size_layers,
        bytes: size_bytes,
        forecast,
    };
    core_ffi::number(core_ffi::read_with_lengths(true, file, programme, lengths, &mut room))
}

// `jobfile::read_mixed_job` for C.
#[unsafe(no_mangle)]
pub extern "C" fn film_read_mixed_job(
    file: &[u8],
    programme: &mut [u16],
    lengths: &mut [u64],
    sizes: &mut [u32],
    forecast: &mut [u32],
) -> u64
    ensures { JobReadReturned mixed file.now
        (job_room
        (buffers sizes.old [] [] [] forecast.old)
        programme.old lengths.old)
        result
        (job_room
        (buffers sizes.new [] [] [] forecast.new)
        programme.new lengths.new) }
{
    // A mixed file has no SZ, so nothing is lent for them.
    let mut out = LentJob {
        sizes,
        chunks: &mut [],
        layers: &mut [],
        bytes: &mut [],
        forecast,
    };
    core_ffi::number(core_ffi::read_with_lengths(false, file, programme, lengths, &mut out))
}

// `jobfile::write_job` for C.
#[unsafe(no_mangle)]
pub extern "C" fn film_write_job(
    chunks: u16,
    span: u16,
    delay: u16,
    limit: u16,
    sizes: &[u32],
    size_chunks: &[u16],
    size_layers: &[u8],
    size_bytes: &[u32],
    forecast: &[u32],
    out: &mut [u8],
) -> u64
    ensures { JobWriteReturned
        (film chunks span delay limit sizes.now size_chunks.now size_layers.now
        size_bytes.now forecast.now)
        out.old result out.new }
{
    let job = JobInput {
        programme: Programme {
            chunks,
            span,
            delay,
            limit,
        },
        sizes,
        overrides: Overrides {
            chunks: size_chunks,
            layers: size_layers,
            bytes: size_bytes,
        },
        forecast,
    };
    core_ffi::number(jobfile::write_job(&job, out))
}

// `planfile::read_plan` for C.
#[unsafe(no_mangle)]
pub extern "C" fn film_read_plan(
    chunks: u16,
    span: u16,
    delay: u16,
    limit: u16,
    sizes: &[u32],
    size_chunks: &[u16],
    size_layers: &[u8],
    size_bytes: &[u32],
    forecast: &[u32],
    file: &[u8],
    marks: &mut [u8],
    row_slots: &mut [u16],
    row_chunks: &mut [u16],
    row_layers: &mut [u8],
    row_bytes: &mut [u32],
) -> u64
    ensures { PlanReadReturned
        (film chunks span delay limit sizes.now size_chunks.now size_layers.now
        size_bytes.now forecast.now)
        file.now
        (slices_of marks.old row_slots.old row_chunks.old
        row_layers.old row_bytes.old)
        result
        (slices_of marks.new row_slots.new row_chunks.new
        row_layers.new row_bytes.new) }
{
    let job = JobInput {
        programme: Programme {
            chunks,
            span,
            delay,
            limit,
        },
        sizes,
        overrides: Overrides {
            chunks: size_chunks,
            layers: size_layers,
            bytes: size_bytes,
        },
        forecast,
    };
    let mut out = LentList {
        marks,
        slots: row_slots,
        chunks: row_chunks,
        layers: row_layers,
        bytes: row_bytes,
    };
    core_ffi::number(planfile::read_plan(&job, file, &mut out))
}

// `planfile::write_plan` for C.
#[unsafe(no_mangle)]
pub extern "C" fn film_write_plan(
    chunks: u16,
    span: u16,
    delay: u16,
    limit: u16,
    sizes: &[u32],
    size_chunks: &[u16],
    size_layers: &[u8],
    size_bytes: &[u32],
    forecast: &[u32],
    marks: &[u8],
    row_slots: &[u16],
    row_chunks: &[u16],
    row_layers: &[u8],
    row_bytes: &[u32],
    out: &mut [u8],
) -> u64
    ensures { PlanWriteReturned
        (film chunks span delay limit sizes.now size_chunks.now size_layers.now
        size_bytes.now forecast.now)
        (slices_of marks.now row_slots.now row_chunks.now
        row_layers.now row_bytes.now)
        out.old result out.new }
{
    let job = JobInput {
        programme: Programme {
            chunks,
            span,
            delay,
            limit,
        },
        sizes,
        overrides: Overrides {
            chunks: size_chunks,
            layers: size_layers,
            bytes: size_bytes,
        },
        forecast,
    };
    let list = FetchList {
        marks,
        rows: Rows {
            slots: row_slots,
            chunks: row_chunks,
            layers: row_layers,
            bytes: row_bytes,
        },
    };
    core_ffi::number(planfile::write_plan(&job, &list, out))
}
