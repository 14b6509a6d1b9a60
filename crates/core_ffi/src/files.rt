// The reading of a job file, with the programme and the two lengths beside the buffers.
ghost use Rattle.std.specs.Prelude.{◌≡◌, Err};
ghost use Rattle.theory_basics.specs.Refusals.{◌or_else◌};
ghost use Rattle.refusals.specs.Numbers.{by_number};
ghost use Rattle.jobrecords.specs.Refusal.{refusal_of};
ghost use Rattle.jobrecords.specs.Reader.{JobReadPromise};
ghost use Rattle.jobrecords.specs.Handed.{SameBuffers, lent_job};
ghost use Rattle.core_ffi.specs.Files.{JobReadReturned, job_room};
ghost use Rattle.core_ffi.specs.lemmas.Numbers.{answer_number};

use jobrecords::{LentJob, ReadJob};
use refusals::Refusal;

// A job file by the reader of its form. A mixed file has no SZ, so the room for them stays as it is.
fn read_either(sequenced: bool, file: &[u8], out: &mut LentJob) -> Result<ReadJob, Refusal>
    ensures promise { JobReadPromise sequenced file.now (lent_job out.old) (by_number result)
        (lent_job out.new) }
    ensures same { SameBuffers out.old out.new }
{
    if sequenced {
        jobfile::read_job(file, out)
    } else {
        jobfile::read_mixed_job(file, out.sizes, out.forecast)
    }
}

// Where the programme or the lengths have no room, the file is read into none: it is refused by all
// that comes before 11, or by 11.
#[tactic(auto, unfolding(jobrecords::specs::Reader::read_answer))]
fn read_short(sequenced: bool, file: &[u8]) -> Result<usize, Refusal>
    ensures { by_number result ≡ Err (refusal_of sequenced file.now or_else 11) }
{
    let mut none = LentJob {
        sizes: &mut [],
        chunks: &mut [],
        layers: &mut [],
        bytes: &mut [],
        forecast: &mut [],
    };
    read_either(sequenced, file, &mut none)?;
    Err(Refusal::ShortBuffer)
}

// The number of slots of a job file, in one sequence or mixed, whose job is read into the room, its
// programme and how many layers and SZs it has beside it.
pub fn read_with_lengths(
    sequenced: bool,
    file: &[u8],
    programme: &mut [u16],
    lengths: &mut [u64],
    out: &mut LentJob,
) -> Result<usize, Refusal>
    ensures same { SameBuffers out.old out.new }
    ensures returned { JobReadReturned sequenced file.now
        (job_room (lent_job out.old) programme.old lengths.old)
        (answer_number (by_number result))
        (job_room (lent_job out.new) programme.new lengths.new) }
{
    let Some(four) = programme.first_chunk_mut::<4>() else {
        return read_short(sequenced, file);
    };
    let Some(two) = lengths.first_chunk_mut::<2>() else {
        return read_short(sequenced, file);
    };
    let read = read_either(sequenced, file, out)?;
    let p = read.programme;
    *four = [p.chunks, p.span, p.delay, p.limit];
    *two = [read.layers as u64, read.overrides as u64];
    Ok(read.slots)
}
