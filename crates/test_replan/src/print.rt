// Columns to standard output, and what the calls answer.
use fetch::FetchList;
use planner::Planned;
use refusals::Refusal;
use std::fmt::Display;
use std::io;

fn column<T: Display>(rt: &impl Print, text: &str, column: &[T]) -> io::Result<()> {
    print!(rt; ", {text}")?;
    for x in column {
        print!(rt; " {x}")?;
    }
    Ok(())
}

// The rows and the counts. A refusal has no counts, which the line says by zeros.
pub(crate) fn plan_said(rt: &impl Print, plan: Result<Planned, Refusal>) -> io::Result<()> {
    match plan {
        Ok(plan) => {
            let [a, b, c, d] = plan.counts;
            print!(rt; ": rows {}, counts {a} {b} {c} {d}", plan.rows)
        }
        Err(refusal) => print!(rt; ": refused {}, counts 0 0 0 0", refusal.number()),
    }
}

// What is lent, after the call.
pub(crate) fn list_said(rt: &impl Print, list: &FetchList) -> io::Result<()> {
    column(rt, "marks", list.marks)?;
    column(rt, "slots", list.rows.slots)?;
    column(rt, "chunks", list.rows.chunks)?;
    column(rt, "layers", list.rows.layers)?;
    column(rt, "bytes", list.rows.bytes)
}

pub(crate) fn verdict_said(rt: &impl Print, checked: Result<u8, Refusal>) -> io::Result<()> {
    match checked {
        Ok(verdict) => print!(rt; ": verdict {verdict}"),
        Err(refusal) => print!(rt; ": refused {}", refusal.number()),
    }
}
