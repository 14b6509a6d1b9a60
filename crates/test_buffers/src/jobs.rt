// Job files: refusals 1, 5, 6, 7 and 11, and the order of those that compete. Each trial says how
// much of its slices and buffers it hands over.
use crate::rooms::{job_of, job_part, written_said};
use job::JobInput;
use jobrecords::{LentJob, ReadJob};
use refusals::Refusal;
use std::io;

fn write_job(rt: &impl Print, text: &str, job: JobInput, room: usize) -> io::Result<()> {
    let mut out = [0u8; 72];
    print!(rt; "{text}")?;
    written_said(rt, jobfile::write_job(&job, &mut out[..room.min(72)]))
}

pub(crate) fn writes(rt: &impl Print) -> io::Result<()> {
    write_job(rt, "", job_part(3, 2, 6), 72)?;
    write_job(rt, "", job_part(3, 2, 6), 71)?;
    write_job(rt, "5 before 6 and 7: ", job_part(501, 0, 0), 72)?;
    write_job(rt, "6 before 7: ", job_part(3, 0, 0), 72)?;
    write_job(rt, "", job_part(3, 5, 6), 72)?;
    write_job(rt, "7 before 11: ", job_part(3, 2, 5), 0)
}

fn read_said(rt: &impl Print, read: Result<ReadJob, Refusal>) -> io::Result<()> {
    match read {
        Ok(
            ReadJob {
                programme: _,
                layers,
                overrides: _,
                slots,
            },
        ) => print!(rt; "layers {layers} slots {slots}"),
        Err(refusal) => print!(rt; "refused {}", refusal.number()),
    }
}

// The bytes before and past the job, after it was read.
fn shown(rt: &impl Print, sizes: [u32; 3], forecast: [u32; 7]) -> io::Result<()> {
    let [size, _, last_size] = sizes;
    let [slot, _, _, _, _, _, last_slot] = forecast;
    println!(rt; ", then {size} {last_size} {slot} {last_slot}")
}

// A file is read into room for so many layers and slots.
fn read_job(
    rt: &impl Print,
    text: &str,
    file: &[u8],
    layers: usize,
    slots: usize,
) -> io::Result<()> {
    let mut sizes = [9u32; 3];
    let mut forecast = [9u32; 7];
    let mut lent = LentJob {
        sizes: &mut sizes[..layers.min(3)],
        chunks: &mut [],
        layers: &mut [],
        bytes: &mut [],
        forecast: &mut forecast[..slots.min(7)],
    };
    print!(rt; "{text}")?;
    read_said(rt, jobfile::read_job(file, &mut lent))?;
    shown(rt, sizes, forecast)
}

// The same by document 01's reader.
fn read_mixed(
    rt: &impl Print,
    text: &str,
    file: &[u8],
    layers: usize,
    slots: usize,
) -> io::Result<()> {
    let mut sizes = [9u32; 3];
    let mut forecast = [9u32; 7];
    print!(rt; "{text}")?;
    let read = jobfile::read_mixed_job(
        file,
        &mut sizes[..layers.min(3)],
        &mut forecast[..slots.min(7)],
    );
    read_said(rt, read)?;
    shown(rt, sizes, forecast)
}

// Job A's file.
pub(crate) fn reads(rt: &impl Print) -> io::Result<()> {
    let mut file = [0u8; 72];
    match jobfile::write_job(&job_of(3), &mut file) {
        Ok(_) => {
            read_rooms(rt, &file)?;
            read_mixed_rooms(rt, &file)
        }
        Err(refusal) => println!(rt; "refused {}", refusal.number()),
    }
}

fn read_rooms(rt: &impl Print, file: &[u8; 72]) -> io::Result<()> {
    read_job(rt, "", file, 3, 7)?;
    read_job(rt, "", file, 2, 6)?;
    read_job(rt, "no room for a layer: ", file, 1, 7)?;
    read_job(rt, "no room for a slot: ", file, 3, 5)?;
    read_job(rt, "1 before 11: ", &file[..71], 1, 5)
}

fn read_mixed_rooms(rt: &impl Print, file: &[u8; 72]) -> io::Result<()> {
    read_mixed(rt, "mixed: ", file, 3, 7)?;
    read_mixed(rt, "mixed, no room for a layer: ", file, 1, 7)?;
    read_mixed(rt, "mixed, no room for a slot: ", file, 3, 5)?;
    read_mixed(rt, "mixed, 1 before 11: ", &file[..71], 1, 5)
}
