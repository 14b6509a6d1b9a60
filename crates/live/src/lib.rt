// What to fetch next in a slot of the act, whatever the link brings: from the rows fetched before
// the slot and a rate, the pieces to ask the link for, one after the other, as far as the slot
// goes. A desk that asks so from slot 1 to d(C) on an accepted job is refused neither by 21 nor by
// 22, as long as the forecast that it hands of each slot gone covers what that slot brought.
#![tactic(auto)]

ghost use Rattle.std.specs.Prelude.{◌≡◌, ◌-◌, drop};
ghost use Rattle.job.specs.Handed.{handed};
ghost use Rattle.fetch.specs.Handed.{handed_rows};
ghost use Rattle.live.specs.Answer.{live_input, LivePromise};
ghost use Rattle.live.specs.Handed.{SamePieces, lent_pieces};

use fetch::Rows;
use job::{CHUNKS, JobInput, SIZES};
use refusals::Refusal;

// Room for pieces: what is written stands at the front of each slice.
#[derive(Drop)]
pub struct LentPieces<'a> {
    pub chunks: &'a mut [u16],
    pub layers: &'a mut [u8],
    pub bytes: &'a mut [u32],
}

// The forecast from a slot on, as the job has it.
fn onward(forecast: &[u32], from: usize) -> &[u32]
    ensures { result.now ≡ drop (from - 1) forecast.now }
{
    &forecast[from.saturating_sub(1).min(forecast.len())..]
}

// The asks of slot from at a rate, beside the rows fetched before it: for each layer from the base
// up, for each asked chunk in playing order, the bytes not yet fetched. They are put aside, and
// copied if they fit whole. Refusals 5, 6, 18, 7, 8, 21, 22 as in planning afresh, then 11 where a
// slice is shorter than the result; a refusal writes nothing.
pub fn live(
    job: &JobInput,
    from: u16,
    fetched: &Rows,
    rate: u32,
    out: &mut LentPieces,
) -> Result<usize, Refusal>
    ensures same { SamePieces out.old out.new }
    ensures promise { LivePromise (live_input (handed job.now) from (handed_rows fetched.now) rate)
        (lent_pieces out.old) result (lent_pieces out.new) }
{
    let start = from as usize;
    // Every place is written before it is read. A filling that is no constant is stored in wide
    // words, faster than cleared.
    let p = job.programme;
    let unset = p.chunks as u32;
    let mut left = [unset; SIZES];
    let mut begun = [0u8; CHUNKS];
    let mut whole = [0u8; CHUNKS];
    let rest = onward(job.forecast, start);
    replan::accept_fetched(job, from, fetched, rest, &mut left, &mut begun, &mut whole)?;
    let mut chunks = [0u16; SIZES];
    let mut layers = [0u8; SIZES];
    let mut bytes = [0u32; SIZES];
    let depth = job.sizes.len() as u8;
    let n = core_live::ask(
        p,
        depth,
        start,
        rate,
        &left,
        &begun,
        &mut chunks,
        &mut layers,
        &mut bytes,
    );
    if n <= out.chunks.len() && n <= out.layers.len() && n <= out.bytes.len() {
        core_slices::copy_over(&chunks, n, out.chunks);
        core_slices::copy_over(&layers, n, out.layers);
        core_slices::copy_over(&bytes, n, out.bytes);
        Ok(n)
    } else {
        Err(Refusal::ShortBuffer)
    }
}
