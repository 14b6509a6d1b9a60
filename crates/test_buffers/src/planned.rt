// The planner's room: exact, and one short, for each lent slice.
use crate::rooms::{Lengths, each, job_of, marks_said};
use fetch::LentList;
use planner::Planned;
use refusals::Refusal;
use std::io;

// A refusal has no counts, which the line says by zeros.
fn plan_said(rt: &impl Print, plan: Result<Planned, Refusal>) -> io::Result<()> {
    match plan {
        Ok(plan) => {
            let [a, b, c, d] = plan.counts;
            print!(rt; "rows {} counts {a} {b} {c} {d}", plan.rows)
        }
        Err(refusal) => print!(rt; "refused {} counts 0 0 0 0", refusal.number()),
    }
}

// Job A's plan, or that of a part of it, into so much room.
fn plan(rt: &impl Print, text: &str, film: u16, lengths: Lengths) -> io::Result<()> {
    let mut marks = [9u8; 4];
    let mut slots = [9u16; 4];
    let mut chunks = [9u16; 4];
    let mut layers = [9u8; 4];
    let mut bytes = [9u32; 4];
    let mut lent = LentList {
        marks: &mut marks[..lengths.marks.min(4)],
        slots: &mut slots[..lengths.slots.min(4)],
        chunks: &mut chunks[..lengths.chunks.min(4)],
        layers: &mut layers[..lengths.layers.min(4)],
        bytes: &mut bytes[..lengths.bytes.min(4)],
    };
    print!(rt; "{text}")?;
    plan_said(rt, planner::plan(&job_of(film), &mut lent))?;
    marks_said(rt, marks, layers)
}

pub(crate) fn rooms(rt: &impl Print) -> io::Result<()> {
    let exact = each(3);
    plan(rt, "", 3, each(4))?;
    plan(rt, "", 3, exact)?;
    plan(rt, "no room for a mark: ", 3, Lengths { marks: 2, ..exact })?;
    plan(rt, "for a slot: ", 3, Lengths { slots: 2, ..exact })?;
    plan(rt, "for a chunk: ", 3, Lengths { chunks: 2, ..exact })?;
    plan(rt, "for a layer: ", 3, Lengths { layers: 2, ..exact })?;
    plan(rt, "for bytes: ", 3, Lengths { bytes: 2, ..exact })?;
    plan(rt, "5 before 11: ", 501, each(0))
}
