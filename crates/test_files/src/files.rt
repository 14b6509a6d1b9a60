// The case files: j.. are job files, read in one sequence and then as mixed files, p.. plan files
// for job A.
use crate::print::refused;
use core_prefix::prefix;
use fetch::{FetchList, LentList, Rows};
use job::{JobInput, OVERRIDES, Overrides, Programme, SLOTS};
use jobrecords::{LentJob, ReadJob};
use refusals::Refusal;
use std::io;
use std::rt::Files;

// Room for any job.
#[derive(Clone, Copy)]
struct Room {
    sizes: [u32; 4],
    chunks: [u16; OVERRIDES],
    layers: [u8; OVERRIDES],
    bytes: [u32; OVERRIDES],
    forecast: [u32; SLOTS],
}

fn empty_room() -> Room {
    Room {
        sizes: [0; 4],
        chunks: [0; OVERRIDES],
        layers: [0; OVERRIDES],
        bytes: [0; OVERRIDES],
        forecast: [0; SLOTS],
    }
}

// The job that was read into the room.
fn job_in<'a>(room: &'a Room, read: &ReadJob) -> JobInput<'a> {
    let n = read.overrides;
    let overrides = Overrides {
        chunks: prefix(&room.chunks, n),
        layers: prefix(&room.layers, n),
        bytes: prefix(&room.bytes, n),
    };
    JobInput {
        programme: read.programme,
        sizes: prefix(&room.sizes, read.layers),
        overrides,
        forecast: prefix(&room.forecast, read.slots),
    }
}

fn read_into(room: &mut Room, file: &[u8]) -> Result<ReadJob, Refusal> {
    let mut lent = LentJob {
        sizes: &mut room.sizes,
        chunks: &mut room.chunks,
        layers: &mut room.layers,
        bytes: &mut room.bytes,
        forecast: &mut room.forecast,
    };
    jobfile::read_job(file, &mut lent)
}

// The bytes of a case file go to the start of file, at most as many as that has. A file that can't
// be opened is read as empty.
pub(crate) fn read_case(
    rt: &(impl Files + Print),
    kind: u8,
    i: u8,
    file: &mut [u8; 65537],
) -> io::Result<usize> {
    let path = [kind, b'0' + i / 10 % 10, b'0' + i % 10];
    rt.write_all(&path)?;
    print!(rt; " ")?;
    core_input::read_file(rt, &path, file)
}

fn lengths_said(rt: &impl Print, read: &ReadJob) -> io::Result<()> {
    let layers = read.layers;
    let overrides = read.overrides;
    let slots = read.slots;
    print!(rt; " layers {layers} SZs {overrides} slots {slots}")
}

// What a written job reads back as.
fn again(rt: &impl Print, file: &[u8]) -> io::Result<()> {
    let mut room = empty_room();
    match read_into(&mut room, file) {
        Ok(read) => {
            lengths_said(rt, &read)?;
            println!(rt;)
        }
        Err(refusal) => refused(rt, refusal),
    }
}

// How many bytes the job has when it is written, and what they read back as.
fn written(rt: &impl Print, job: &JobInput) -> io::Result<()> {
    let mut out = [0u8; 46800];
    match jobfile::write_job(job, &mut out) {
        Ok(n) => {
            print!(rt; " written {n} again")?;
            again(rt, prefix(&out, n))
        }
        Err(refusal) => refused(rt, refusal),
    }
}

fn job_said(rt: &impl Print, read: Result<ReadJob, Refusal>, room: &Room) -> io::Result<()> {
    match read {
        Ok(read) => {
            print!(rt; "chunks {}", read.programme.chunks)?;
            lengths_said(rt, &read)?;
            written(rt, &job_in(room, &read))
        }
        Err(refusal) => refused(rt, refusal),
    }
}

fn job_file(rt: &impl Print, file: &[u8]) -> io::Result<()> {
    let mut room = empty_room();
    let read = read_into(&mut room, file);
    job_said(rt, read, &room)
}

fn mixed_file(rt: &impl Print, file: &[u8]) -> io::Result<()> {
    let mut room = empty_room();
    let read = jobfile::read_mixed_job(file, &mut room.sizes, &mut room.forecast);
    job_said(rt, read, &room)
}

const JOB_A: JobInput = JobInput {
    programme: Programme {
        chunks: 3,
        span: 2,
        delay: 2,
        limit: 2,
    },
    sizes: &[2, 1],
    overrides: Overrides {
        chunks: &[],
        layers: &[],
        bytes: &[],
    },
    forecast: &[3, 0, 1, 0, 2, 0],
};

// The rows of a plan file for job A, and the verdict on them.
fn plan_file(rt: &impl Print, file: &[u8]) -> io::Result<()> {
    let mut marks = [0u8; 3];
    let mut slots = [0u16; 8];
    let mut chunks = [0u16; 8];
    let mut layers = [0u8; 8];
    let mut bytes = [0u32; 8];
    let mut lent = LentList {
        marks: &mut marks,
        slots: &mut slots,
        chunks: &mut chunks,
        layers: &mut layers,
        bytes: &mut bytes,
    };
    match planfile::read_plan(&JOB_A, file, &mut lent) {
        Ok(n) => {
            print!(rt; "rows {n}")?;
            let rows = Rows {
                slots: prefix(&slots, n),
                chunks: prefix(&chunks, n),
                layers: prefix(&layers, n),
                bytes: prefix(&bytes, n),
            };
            let list = FetchList {
                marks: &marks,
                rows,
            };
            verdict_said(rt, &list)
        }
        Err(refusal) => refused(rt, refusal),
    }
}

fn verdict_said(rt: &impl Print, list: &FetchList) -> io::Result<()> {
    match checker::check(&JOB_A, list) {
        Ok(verdict) => println!(rt; " verdict {verdict}"),
        Err(refusal) => refused(rt, refusal),
    }
}

fn job_case(rt: &(impl Files + Print), i: u8) -> io::Result<()> {
    let mut file = [0u8; 65537];
    let n = read_case(rt, b'j', i, &mut file)?;
    let file = prefix(&file, n);
    job_file(rt, file)?;
    print!(rt; "    mixed ")?;
    mixed_file(rt, file)
}

fn plan_case(rt: &(impl Files + Print), i: u8) -> io::Result<()> {
    let mut file = [0u8; 65537];
    let n = read_case(rt, b'p', i, &mut file)?;
    plan_file(rt, prefix(&file, n))
}

pub(crate) fn job_files(rt: &(impl Files + Print)) -> io::Result<()> {
    for i in 0..100 {
        job_case(rt, i)?;
    }
    Ok(())
}

pub(crate) fn plan_files(rt: &(impl Files + Print)) -> io::Result<()> {
    for i in 0..39 {
        plan_case(rt, i)?;
    }
    Ok(())
}
