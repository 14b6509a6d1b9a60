// Planning afresh during the act: from the slot of replanning on, over the rows fetched before it
// and the forecast from it on. Marks, counts and only the rows from that slot on, as document 02
// settles and document 01 lists them.
#![tactic(auto)]

ghost use Rattle.std.specs.Prelude.{◌≡◌, ltb};
ghost use Rattle.theory_basics.specs.Refusals.{unless};
ghost use Rattle.theory_basics.specs.Tests.{all};
ghost use Rattle.refusals.specs.Numbers.{refusal_number};
ghost use Rattle.job.specs.Handed.{handed};
ghost use Rattle.fetch.specs.Handed.{SameSlices, lent_list};
ghost use Rattle.core_sizes.specs.Table.{table_at};
ghost use Rattle.replan.specs.Answer.{ReplanPromise, input_refusal};
ghost use Rattle.replan.specs.Handed.{handed_on};
ghost use Rattle.replan.specs.lemmas.Asked.{part_refusal, asked_refusal};
ghost use Rattle.replan.specs.lemmas.Afresh.{Gathered};

use fetch::{FetchList, LentList, Rows};
use job::{CHUNKS, JobInput, Programme, SIZES, SizeTable};
use planner::Planned;
use refusals::{Refusal, refuse_unless};

// Every slot is before one.
fn all_before(from: u16, slots: &[u16]) -> bool
    ensures { result ≡ all (λ s. ltb s from) slots.now }
{
    slots.iter().all(|&s| s < from)
}

// 21: a handed row not before the slot.
fn accept_before(from: u16, slots: &[u16]) -> Result<(), Refusal>
    ensures { refusal_number result ≡ unless 21 (all (λ s. ltb s from) slots.now) }
{
    refuse_unless(all_before(from, slots), Refusal::Slot)
}

// 7: a handed forecast out of range, or not of the slots from the replanning slot to the last.
fn accept_part(p: Programme, from: u16, onward: &[u32]) -> Result<(), Refusal>
    ensures { refusal_number result ≡ part_refusal p from onward.now }
{
    job::accept_bytes(onward)?;
    let many = (job::last_due(p) + 1).saturating_sub(from as usize);
    refuse_unless(onward.len() == many, Refusal::Forecast)
}

// 5, 6, 18, 7, 8, 21, and 7 of the handed forecast.
pub fn accept_asked(
    job: &JobInput,
    from: u16,
    fetched: &Rows,
    onward: &[u32],
) -> Result<(), Refusal>
    ensures { refusal_number result ≡
        asked_refusal (handed job.now) (handed_on from fetched.now onward.now) }
{
    job::accept(job)?;
    // No marks are handed.
    let list = FetchList {
        marks: &[],
        rows: *fetched,
    };
    fetch::accept_list(0, &list)?;
    fetch::accept_slot(job.programme, from)?;
    accept_before(from, fetched.slots)?;
    accept_part(job.programme, from, onward)
}

// All but 11: those refusals, then 22. Where there is none, left, begun and whole say what the
// fetched rows leave of each layer, which chunks they begin, and the marks of the layers whole in
// them.
// Kept: these are three parameters, since core_replan_input fills and core_replan_decide reads
// three tables.
pub fn accept_fetched(
    job: &JobInput,
    from: u16,
    fetched: &Rows,
    onward: &[u32],
    left: &mut SizeTable,
    begun: &mut [u8; CHUNKS],
    whole: &mut [u8; CHUNKS],
) -> Result<(), Refusal>
    ensures refused { refusal_number result ≡
        input_refusal (handed job.now) (handed_on from fetched.now onward.now) }
    ensures gathered { refusal_number result ≡ 0 →
        Gathered (handed job.now) (handed_on from fetched.now onward.now) left.new begun.new whole.new }
{
    accept_asked(job, from, fetched, onward)?;
    // Every place is written before it is read. A filling that is no constant is stored in wide
    // words, faster than cleared.
    let unset = job.programme.chunks as u32;
    let mut table = [unset; SIZES];
    core_sizes::fill_sizes(job, &mut table);
    let kept = core_replan_input::gather(
        job.programme,
        &table,
        job.sizes.len(),
        &job.forecast[..from as usize - 1],
        fetched.slots,
        fetched.chunks,
        fetched.layers,
        fetched.bytes,
        left,
        begun,
        whole,
    );
    refuse_unless(kept, Refusal::Fetched)
}

// The plan made afresh at a slot, from the rows fetched before it and the forecast from it on, into
// lent marks, one a chunk, and rows: only those from the slot on, by slot, chunk, layer. Refusals
// 5, 6, 18, 7, 8, 21, 7 of the handed forecast, 22, then 11 where a slice is shorter than the
// result; a refusal writes nothing.
pub fn replan(
    job: &JobInput,
    from: u16,
    fetched: &Rows,
    onward: &[u32],
    out: &mut LentList,
) -> Result<Planned, Refusal>
    ensures same { SameSlices out.old out.new }
    ensures promise { ReplanPromise (handed job.now) (handed_on from fetched.now onward.now)
        (lent_list out.old) result (lent_list out.new) }
{
    // Every place is written before it is read, here too.
    let p = job.programme;
    let unset = p.chunks as u32;
    let mut left = [unset; SIZES];
    let mut begun = [0u8; CHUNKS];
    let mut whole = [0u8; CHUNKS];
    accept_fetched(
        job, from, fetched, onward, &mut left, &mut begun, &mut whole,
    )?;
    let count = p.chunks as usize;
    if out.marks.len() < count {
        return Err(Refusal::ShortBuffer);
    }
    let start = from as usize;
    let mut ids = [0u16; CHUNKS];
    let mut ready = [0u16; CHUNKS];
    let mut mark = [0u8; CHUNKS];
    let first = core_replan_decide::decide(
        p,
        job.sizes.len(),
        onward,
        start,
        &left,
        &begun,
        &whole,
        &mut ids,
        &mut ready,
        &mut mark,
    );
    let made = core_output::write_plan(
        count, onward, start, true, &left, first, &ids, &ready, &mark, &whole, out.marks,
        out.slots, out.chunks, out.layers, out.bytes,
    );
    planner::answered(made)
}
