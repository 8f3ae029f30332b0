// The fifth chapter: a tally of timeouts.
use crate::fault::Fault;
use crate::sample::MEMBERS;
use std::alloc::Global;
use tally::{Numbered, Refused, Tally};
use wire::form::quorum;

// The members whose timeouts come in, in turn.
const SENDERS: [usize; 5] = [1, 2, 2, 3, 4];

pub fn chapter(heap: Global) -> Result<String, Fault> {
    let threshold = quorum(MEMBERS) as usize;
    let mut places = [None; MEMBERS as usize];
    let mut tally = Tally::over(&mut places);
    let mut text = String::new(heap);
    writeln!(text, "5. Timeouts of view 0 are counted up to {threshold}")?;
    for member in SENDERS {
        let answer = tally.put(member.saturating_sub(1), Numbered { number: 0 }, threshold);
        writeln!(text, "  member {member}: {}", told(answer))?;
    }
    Ok(text)
}

fn told(answer: Result<bool, Refused>) -> &'static str {
    match answer {
        Ok(true) => "kept, and the threshold is reached",
        Ok(false) => "kept",
        Err(Refused::Held) => "refusal 9, the place holds an equal rank",
        Err(Refused::NoPlace) => "no such place",
    }
}
