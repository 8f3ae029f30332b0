// One lot's way through the ledger, printed step by step.
#![tactic(auto)]

use walkthrough::chapters::{block, book, coins, damages, members, messages, tags, timeouts};
use walkthrough::fault::Fault;

// Prints a chapter, unless it could not be written.
fn show(rt: &HostRuntime, chapter: Result<String, Fault>) -> Result<(), Fault> {
    rt.println(chapter?)?;
    Ok(())
}

fn main(rt: HostRuntime) -> Result<(), Fault> {
    let heap = rt.alloc();
    show(&rt, block::chapter(heap))?;
    show(&rt, tags::chapter(heap))?;
    show(&rt, book::chapter(heap))?;
    show(&rt, coins::chapter(heap))?;
    show(&rt, timeouts::chapter(heap))?;
    show(&rt, messages::chapter(heap))?;
    show(&rt, damages::chapter(heap))?;
    show(&rt, members::chapter(heap))
}
