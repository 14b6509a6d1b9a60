// The call that says what to fetch next: its number of pieces, and the pieces.
ghost use Rattle.core_ffi.specs.Asks.{LiveReturned};
ghost use Rattle.core_ffi.specs.Convention.{film};
ghost use Rattle.live.specs.Answer.{live_input, piece_slices};
ghost use Rattle.fetch.specs.Slices.{row_slices};

use fetch::Rows;
use job::{JobInput, Overrides, Programme};
use live::LentPieces;

// `live::live` for C.
#[unsafe(no_mangle)]
pub extern "C" fn film_live(
    chunks: u16,
    span: u16,
    delay: u16,
    limit: u16,
    sizes: &[u32],
    size_chunks: &[u16],
    size_layers: &[u8],
    size_bytes: &[u32],
    forecast: &[u32],
    from: u16,
    fetched_slots: &[u16],
    fetched_chunks: &[u16],
    fetched_layers: &[u8],
    fetched_bytes: &[u32],
    rate: u32,
    piece_chunks: &mut [u16],
    piece_layers: &mut [u8],
    piece_bytes: &mut [u32],
) -> u64
    ensures { LiveReturned
        (live_input
        (film chunks span delay limit sizes.now size_chunks.now
        size_layers.now size_bytes.now forecast.now)
        from
        (row_slices fetched_slots.now fetched_chunks.now
        fetched_layers.now fetched_bytes.now)
        rate)
        (piece_slices piece_chunks.old piece_layers.old piece_bytes.old)
        result
        (piece_slices piece_chunks.new piece_layers.new piece_bytes.new) }
{
    let job = JobInput {
        programme: Programme {
            chunks,
            span,
            delay,
            limit,
        },
        sizes,
        overrides: Overrides {
            chunks: size_chunks,
            layers: size_layers,
            bytes: size_bytes,
        },
        forecast,
    };
    let fetched = Rows {
        slots: fetched_slots,
        chunks: fetched_chunks,
        layers: fetched_layers,
        bytes: fetched_bytes,
    };
    let mut out = LentPieces {
        chunks: piece_chunks,
        layers: piece_layers,
        bytes: piece_bytes,
    };
    core_ffi::number(live::live(&job, from, &fetched, rate, &mut out))
}
