// What a call answers, and why one is refused.
ghost use Rattle.std.specs.Prelude.{◌≡◌};
ghost use Rattle.member.specs.Words.{refusal_number};
ghost use Rattle.member.specs.declared.types.Refusal.TheVariants.{Form, Unsigned};

use attest::attestor::WillNotSign;
use wire::reader::Malformed;

// Where a member stands in its view.
#[derive(Clone, Copy, PartialEq, Eq)]
pub enum Stage {
    Steady,
    TimedOut,
    InFallback,
}

// To whom the message goes that a call made.
#[derive(Clone, Copy)]
pub enum Address {
    Nobody,
    All,
    One(u8),
}

// What an accepted call answers: the address and the length of the message in the outgoing buffer, and how many blocks
// were newly committed.
#[derive(Clone, Copy)]
pub struct Answer {
    pub to: Address,
    pub length: usize,
    pub committed: u32,
}

// Why a call is refused, in the order in which the rules are judged. A refused call changes nothing.
#[derive(Clone, Copy, Debug, PartialEq, Eq)]
pub enum Refusal {
    // n, the own number or the size of what is lent is outside its limits
    Sizes,
    // the bytes have not the form
    Form,
    // the message's view is ahead
    Ahead,
    // the message's view is past
    Past,
    // a block rule is broken
    BlockRule,
    // the certified or voted block is not held
    NotHeld,
    // a tag is not accepted
    Tag,
    // a past fallback block or certificate is not its winner's
    NotEndorsed,
    // the tally's place holds an equal or higher rank
    Counted,
    // the vote is another member's to collect
    Collector,
    // the stage forbids it
    OutOfStage,
    // a new block finds no free place
    NoRoom,
    // the last round or the last view is passed
    Ended,
    // the block to commit and the last committed one do not extend one another
    Fork,
    // the dealer's sheet is too short for the view
    Sheet,
    // the attestor will not sign
    Unsigned,
}

// The number of the refusal.
impl From<Refusal> for u8 {
    ghost from_gives = { λ refusal number. number ≡ refusal_number refusal };

    fn from(refusal: Refusal) -> u8 {
        match refusal {
            Refusal::Sizes => 1,
            Refusal::Form => 2,
            Refusal::Ahead => 3,
            Refusal::Past => 4,
            Refusal::BlockRule => 5,
            Refusal::NotHeld => 6,
            Refusal::Tag => 7,
            Refusal::NotEndorsed => 8,
            Refusal::Counted => 9,
            Refusal::Collector => 10,
            Refusal::OutOfStage => 11,
            Refusal::NoRoom => 12,
            Refusal::Ended => 13,
            Refusal::Fork => 14,
            Refusal::Sheet => 15,
            Refusal::Unsigned => 16,
        }
    }
}

// An attestor that will not sign.
impl From<WillNotSign> for Refusal {
    ghost from_gives = { λ _ refusal. refusal ≡ Unsigned };

    fn from(_: WillNotSign) -> Refusal {
        Self::Unsigned
    }
}

// Bytes that are no message.
impl From<Malformed> for Refusal {
    ghost from_gives = { λ _ refusal. refusal ≡ Form };

    fn from(_: Malformed) -> Refusal {
        Self::Form
    }
}
