// The room lent for SZs when a file is read: exact, longer, and one short for each of the three.
use crate::calls::{job_a, szs};
use jobrecords::{LentJob, ReadJob};
use refusals::Refusal;
use std::io;

fn read_said(rt: &impl Print, read: Result<ReadJob, Refusal>) -> io::Result<()> {
    match read {
        Ok(
            ReadJob {
                programme: _,
                layers,
                overrides,
                slots,
            },
        ) => print!(rt; "layers {layers} SZs {overrides} slots {slots}"),
        Err(refusal) => print!(rt; "refused {}", refusal.number()),
    }
}

// A file with two SZs is read into room for so many of each of their fields. Of the lent room after
// the call the numbers of the last SZ are shown, and those past it.
fn read(
    rt: &impl Print,
    text: &str,
    file: &[u8],
    chunk: usize,
    layer: usize,
    byte: usize,
) -> io::Result<()> {
    let mut sizes = [0u32; 2];
    let mut chunks = [9u16; 3];
    let mut layers = [9u8; 3];
    let mut bytes = [9u32; 3];
    let mut forecast = [0u32; 6];
    let mut lent = LentJob {
        sizes: &mut sizes,
        chunks: &mut chunks[..chunk.min(3)],
        layers: &mut layers[..layer.min(3)],
        bytes: &mut bytes[..byte.min(3)],
        forecast: &mut forecast,
    };
    print!(rt; "{text}: ")?;
    read_said(rt, jobfile::read_job(file, &mut lent))?;
    let [_, chunk, past_chunk] = chunks;
    let [_, layer, past_layer] = layers;
    let [_, byte, past_byte] = bytes;
    println!(rt; ", then {chunk} {past_chunk} {layer} {past_layer} {byte} {past_byte}")
}

pub(crate) fn rooms(rt: &impl Print) -> io::Result<()> {
    let job = job_a(szs(&[2, 3], &[0, 1], &[1, 2]));
    let mut file = [0u8; 90];
    match jobfile::write_job(&job, &mut file) {
        Ok(_) => read_all(rt, &file),
        Err(refusal) => println!(rt; "refused {}", refusal.number()),
    }
}

fn read_all(rt: &impl Print, file: &[u8]) -> io::Result<()> {
    read(rt, "longer", file, 3, 3, 3)?;
    read(rt, "exact", file, 2, 2, 2)?;
    read(rt, "no room for a chunk", file, 1, 2, 2)?;
    read(rt, "for a layer", file, 2, 1, 2)?;
    read(rt, "for bytes", file, 2, 2, 1)
}
