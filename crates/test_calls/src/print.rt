// A refusal, to standard output.
use refusals::Refusal;
use std::io;

pub(crate) fn refused(rt: &impl Print, refusal: Refusal) -> io::Result<()> {
    println!(rt; "refused {}", refusal.number())
}
