// The kinds of messages, by their numbers.
ghost use Rattle.std.specs.Prelude.{◌≡◌};
ghost use Rattle.wire.specs.Kinds.{kind_number, KindRead};

use crate::reader::Malformed;

// What a message is; a message begins with the kind's number.
#[derive(Clone, Copy, PartialEq, Eq, Debug)]
pub enum MessageKind {
    Proposal = 1,
    Vote,
    Timeout,
    TimeoutCertificate,
    Certificate,
    Share,
    CoinCertificate,
}

impl From<MessageKind> for u8 {
    ghost from_gives = { λ kind number. number ≡ kind_number kind };

    fn from(kind: MessageKind) -> u8 {
        kind as u8
    }
}

impl TryFrom<u8> for MessageKind {
    type Error = Malformed;

    ghost try_from_gives = { KindRead };

    fn try_from(number: u8) -> Result<MessageKind, Malformed> {
        match number {
            1 => Ok(MessageKind::Proposal),
            2 => Ok(MessageKind::Vote),
            3 => Ok(MessageKind::Timeout),
            4 => Ok(MessageKind::TimeoutCertificate),
            5 => Ok(MessageKind::Certificate),
            6 => Ok(MessageKind::Share),
            7 => Ok(MessageKind::CoinCertificate),
            _ => Err(Malformed),
        }
    }
}
