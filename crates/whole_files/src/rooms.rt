// Arrays that hold any job and any list: what is read or planned into them is never refused by 11.
// They are cleared: what is filled with no constant is made beside the room and copied into it.
ghost use Rattle.std.specs.Prelude.{◌≡◌};
ghost use Rattle.theory_basics.specs.Refusals.{◌or_else◌};
ghost use Rattle.records.specs.File.{file_refusal};
ghost use Rattle.job.specs.Handed.{handed};
ghost use Rattle.job.specs.Input.{job_in, job_refusal};
ghost use Rattle.fetch.specs.Handed.{handed_list};
ghost use Rattle.planfile.specs.PlanFile.{format, plan_in};
ghost use Rattle.whole_files.specs.Files.{plan_of_job};
ghost use Rattle.whole_files.specs.lemmas.Rooms.{HoldsList, ReadsJob, ReadsMixed, job_of, list_of, mixed_of};

use fetch::{FetchList, LentList, Rows};
use job::{CHUNKS, JobInput, LAYERS, OVERRIDES, Overrides, SLOTS};
use jobrecords::{LentJob, ReadJob};
use refusals::Refusal;

// The most rows of a plan file, more than any plan's own list has.
const FILE_ROWS: usize = 5957;

// Room for a job: for its sizes, for the chunks, layers and sizes of its SZs, and for its forecast.
#[derive(Drop)]
pub struct JobRoom {
    pub sizes: [u32; LAYERS],
    pub chunks: [u16; OVERRIDES],
    pub layers: [u8; OVERRIDES],
    pub bytes: [u32; OVERRIDES],
    pub forecast: [u32; SLOTS],
}

impl JobRoom {
    pub(crate) fn cleared() -> JobRoom {
        JobRoom {
            sizes: [0; LAYERS],
            chunks: [0; OVERRIDES],
            layers: [0; OVERRIDES],
            bytes: [0; OVERRIDES],
            forecast: [0; SLOTS],
        }
    }

    // The job of a file in one sequence.
    pub fn read(&mut self, file: &[u8]) -> Result<ReadJob, Refusal>
        ensures { ReadsJob file.now result self.new }
    {
        let mut out = LentJob {
            sizes: &mut self.sizes,
            chunks: &mut self.chunks,
            layers: &mut self.layers,
            bytes: &mut self.bytes,
            forecast: &mut self.forecast,
        };
        jobfile::read_job(file, &mut out)
    }

    // A job that was read.
    pub fn job(&self, read: ReadJob) -> JobInput<'_>
        ensures { handed result ≡ job_of read self.now }
    {
        JobInput {
            programme: read.programme,
            sizes: core_prefix::prefix(&self.sizes, read.layers),
            overrides: Overrides {
                chunks: core_prefix::prefix(&self.chunks, read.overrides),
                layers: core_prefix::prefix(&self.layers, read.overrides),
                bytes: core_prefix::prefix(&self.bytes, read.overrides),
            },
            forecast: core_prefix::prefix(&self.forecast, read.slots),
        }
    }
}

// Room for the job of a mixed file, which has no SZ: for its sizes and for its forecast.
#[derive(Drop)]
pub struct MixedRoom {
    pub sizes: [u32; LAYERS],
    pub forecast: [u32; SLOTS],
}

impl MixedRoom {
    pub(crate) fn cleared() -> MixedRoom {
        MixedRoom {
            sizes: [0; LAYERS],
            forecast: [0; SLOTS],
        }
    }

    // The job of a mixed file.
    pub fn read(&mut self, file: &[u8]) -> Result<ReadJob, Refusal>
        ensures { ReadsMixed file.now result self.new }
    {
        jobfile::read_mixed_job(file, &mut self.sizes, &mut self.forecast)
    }

    // A job that was read.
    pub fn job(&self, read: ReadJob) -> JobInput<'_>
        ensures { handed result ≡ mixed_of read self.now }
    {
        JobInput {
            programme: read.programme,
            sizes: core_prefix::prefix(&self.sizes, read.layers),
            overrides: Overrides {
                chunks: &[],
                layers: &[],
                bytes: &[],
            },
            forecast: core_prefix::prefix(&self.forecast, read.slots),
        }
    }
}

// Room for a list with its marks.
#[derive(Drop)]
pub struct ListRoom {
    pub marks: [u8; CHUNKS],
    pub slots: [u16; FILE_ROWS],
    pub chunks: [u16; FILE_ROWS],
    pub layers: [u8; FILE_ROWS],
    pub bytes: [u32; FILE_ROWS],
}

impl ListRoom {
    pub(crate) fn cleared() -> ListRoom {
        ListRoom {
            marks: [0; CHUNKS],
            slots: [0; FILE_ROWS],
            chunks: [0; FILE_ROWS],
            layers: [0; FILE_ROWS],
            bytes: [0; FILE_ROWS],
        }
    }

    // The plan of a job, by its number of rows.
    pub fn plan(&mut self, job: &JobInput) -> Result<usize, Refusal>
        ensures { HoldsList (job_refusal (handed job.now)) (plan_of_job (job_in (handed job.now)))
            job.now.programme.chunks result self.new }
    {
        let mut out = LentList {
            marks: &mut self.marks,
            slots: &mut self.slots,
            chunks: &mut self.chunks,
            layers: &mut self.layers,
            bytes: &mut self.bytes,
        };
        let made = planner::plan(job, &mut out)?;
        Ok(made.rows)
    }

    // The list of a plan file of a job, by its number of rows.
    pub fn read(&mut self, job: &JobInput, file: &[u8]) -> Result<usize, Refusal>
        ensures { HoldsList
            (job_refusal (handed job.now)
            or_else file_refusal (format job.now.programme.chunks) file.now)
            (plan_in job.now.programme.chunks file.now)
            job.now.programme.chunks result self.new }
    {
        let mut out = LentList {
            marks: &mut self.marks,
            slots: &mut self.slots,
            chunks: &mut self.chunks,
            layers: &mut self.layers,
            bytes: &mut self.bytes,
        };
        planfile::read_plan(job, file, &mut out)
    }

    // A list with so many marks and rows.
    pub fn list(&self, marks: u16, rows: usize) -> FetchList<'_>
        ensures { handed_list result ≡ list_of self.now marks rows }
    {
        FetchList {
            marks: core_prefix::prefix(&self.marks, marks as usize),
            rows: Rows {
                slots: core_prefix::prefix(&self.slots, rows),
                chunks: core_prefix::prefix(&self.chunks, rows),
                layers: core_prefix::prefix(&self.layers, rows),
                bytes: core_prefix::prefix(&self.bytes, rows),
            },
        }
    }
}
