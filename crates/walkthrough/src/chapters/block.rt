// The first chapter: a lot, and the block that carries it.
use crate::fault::Fault;
use crate::hex::Hex;
use crate::sample::{LOT, block};
use std::alloc::Global;
use std::fmt;

pub fn chapter(heap: Global) -> Result<String, Fault> {
    let block = block()?;
    let text = format!(in heap;
        "1. A lot becomes a block
  lot        house {}, lot {}, {} sacks
  payload    {}  house (1), lot (4), sacks (2)
{}
  block      {}
  id         {}  SHA-256 of these 52 bytes
",
        LOT.house,
        LOT.number,
        LOT.sacks,
        Hex(&LOT.payload()),
        HeadLines(&block.head.bytes()),
        Hex(&block.bytes()),
        Hex(&block.id())
    )?;
    Ok(text)
}

// The fields of a head, as they stand in its 45 bytes.
#[derive(Clone, Copy)]
struct HeadLines<'a>(&'a [u8; 45]);

impl fmt::Display for HeadLines<'_> {
    fn fmt<W: fmt::Write>(&self, f: &mut fmt::Formatter<W>) -> fmt::Result {
        let HeadLines(head) = *self;
        write!(
            f,
            "  head       45 bytes
    kind     {}  regular
    height   {}
    proposer {}  the leader of round 1 of four members
    view     {}
    round    {}
    parent   {}  genesis
    length   {}  of the payload",
            Hex(&head[..1]),
            Hex(&head[1..2]),
            Hex(&head[2..3]),
            Hex(&head[3..7]),
            Hex(&head[7..11]),
            Hex(&head[11..43]),
            Hex(&head[43..])
        )
    }
}
