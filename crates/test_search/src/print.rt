// What the call hands over, to standard output.
use fetch::FetchList;
use refusals::Refusal;
use search::Searched;
use std::io;

// The rows, the counts, and what is said of the walk. A refusal has none of them, which the line
// says by zeros.
pub(crate) fn said(rt: &impl Print, found: Result<Searched, Refusal>) -> io::Result<()> {
    match found {
        Ok(found) => {
            let [a, b, c, d] = found.counts;
            print!(rt;
                "rows {}, counts {a} {b} {c} {d}, steps {}",
                found.rows, found.steps
            )?;
            if found.ended {
                print!(rt; ", ended")?;
            }
            print!(rt; ", short {}", found.shortfall)
        }
        Err(refusal) => {
            print!(rt;
                "refused {}, counts 0 0 0 0, steps 0, short 0",
                refusal.number()
            )
        }
    }
}

// The marks and the rows.
pub(crate) fn list_said(rt: &impl Print, list: &FetchList) -> io::Result<()> {
    print!(rt; ", marks")?;
    for mark in list.marks {
        print!(rt; " {mark}")?;
    }
    print!(rt; ", list")?;
    let rows = list.rows;
    let places = rows.slots.iter().zip(rows.chunks);
    let pieces = rows.layers.iter().zip(rows.bytes);
    for ((slot, chunk), (layer, bytes)) in places.zip(pieces) {
        print!(rt; " {slot}.{chunk}.{layer}.{bytes}")?;
    }
    println!(rt;)
}
