// Views, rounds and ranks. A view is never taken where a round belongs, nor a round for a view.
ghost use Rattle.std.specs.Prelude.{◌≡◌};
ghost use Rattle.blocks.specs.Ranks.{KindRead, less_rank, leading, kind_number};
ghost use Rattle.blocks.specs.Statements.{height_fits};

use crate::limits::ROUNDS_LED;

#[derive(Clone, Copy, Debug, PartialEq, Eq, PartialOrd, Ord)]
pub struct View(pub u32);

#[derive(Clone, Copy, Debug, PartialEq, Eq, PartialOrd, Ord)]
pub struct Round(pub u32);

#[derive(Clone, Copy, Debug, PartialEq, Eq, PartialOrd, Ord)]
pub enum Kind {
    Regular,
    Fallback,
}

// How high a block stands: compared from the left.
#[derive(Clone, Copy, Debug, PartialEq, Eq, PartialOrd, Ord)]
pub struct Rank {
    pub view: View,
    pub kind: Kind,
    pub round: Round,
}

// A byte that stands for no kind.
#[derive(Clone, Copy, Debug, PartialEq, Eq)]
pub struct NoKind(pub u8);

// The byte that stands for the kind.
impl From<Kind> for u8 {
    ghost from_gives = { λ kind byte. byte ≡ kind_number kind };

    fn from(kind: Kind) -> u8 {
        match kind {
            Kind::Regular => 0,
            Kind::Fallback => 1,
        }
    }
}

// The kind that a byte stands for.
impl TryFrom<u8> for Kind {
    type Error = NoKind;

    ghost try_from_gives = { KindRead };

    fn try_from(byte: u8) -> Result<Kind, NoKind> {
        match byte {
            0 => Ok(Kind::Regular),
            1 => Ok(Kind::Fallback),
            _ => Err(NoKind(byte)),
        }
    }
}

impl Kind {
    // Whether a block of the kind can have the height.
    pub fn has_height(self, height: u8) -> bool
        ensures { result ≡ height_fits (kind_number self) height }
    {
        match self {
            Kind::Regular => height == 0,
            Kind::Fallback => (1..=3).contains(&height),
        }
    }
}

impl Rank {
    pub fn below(&self, other: &Rank) -> bool
        ensures { result ≡ less_rank self.now other.now }
    {
        self < other
    }
}

// The leader of a round among n members; nobody where there is none.
pub fn leader(n: u8, round: Round) -> Option<u8>
    ensures { result ≡ leading n round.0 }
{
    if n == 0 {
        return None;
    }
    let turn = round.0.saturating_sub(1) / ROUNDS_LED;
    Some((turn % n as u32) as u8 + 1)
}
