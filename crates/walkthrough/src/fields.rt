// What a message is read as, in lines of text.
use crate::hex::Hex;
use blocks::limits::STATEMENT_BYTES;
use blocks::statement::Statement;
use std::fmt;
use wire::certificate::Certificate;
use wire::message::*;

// The fields of a message.
#[derive(Clone, Copy)]
pub struct Fields<'a>(pub Message<'a>);

// A block and what its head says.
#[derive(Clone, Copy)]
struct BlockLines<'a>(Block<'a>);

// A statement, and under which name its id is shown.
#[derive(Clone, Copy)]
struct StatementLines(Statement, &'static str);

// A certificate and its entries.
#[derive(Clone, Copy)]
struct CertificateLines<'a>(Certificate<'a>);

// A signer and its tag.
#[derive(Clone, Copy)]
struct Signed<'a>(u8, &'a [u8]);

// Entries of a signer and a tag.
#[derive(Clone, Copy)]
struct Signers<'a>(&'a [u8]);

// A member, the value of its share, and the dealer's tag.
#[derive(Clone, Copy)]
struct Shared<'a>(u8, u16, &'a [u8]);

// Entries of a member, a value and the dealer's tag.
#[derive(Clone, Copy)]
struct Sharers<'a>(&'a [u8]);

impl fmt::Display for Fields<'_> {
    fn fmt<W: fmt::Write>(&self, f: &mut fmt::Formatter<W>) -> fmt::Result {
        match self.0 {
            Message::Proposal(p) => write!(
                f,
                "{}{}",
                BlockLines(p.block),
                CertificateLines(p.certificate)
            ),
            Message::Vote(v) => write!(
                f,
                "{}{}",
                StatementLines(v.statement, "id"),
                Signed(v.signer, v.tag)
            ),
            Message::Timeout(t) => write!(
                f,
                "    view {}\n{}{}",
                t.view.0,
                Signed(t.signer, t.tag),
                CertificateLines(t.certificate)
            ),
            Message::TimeoutCertificate(g) => {
                write!(f, "    view {}\n{}", g.view.0, Signers(g.entries))
            }
            Message::Certificate(c) => write!(f, "{}", CertificateLines(c)),
            Message::Share(s) => write!(
                f,
                "    view {}\n{}",
                s.view.0,
                Shared(s.member, s.value, s.tag)
            ),
            Message::CoinCertificate(g) => {
                write!(f, "    view {}\n{}", g.view.0, Sharers(g.entries))
            }
        }
    }
}

impl fmt::Display for BlockLines<'_> {
    fn fmt<W: fmt::Write>(&self, f: &mut fmt::Formatter<W>) -> fmt::Result {
        let Block { head, part } = self.0;
        write!(
            f,
            "    block at {}, {} bytes
{}    payload of {} bytes
",
            part.at,
            part.bytes.len(),
            StatementLines(head.said(head.parent), "parent"),
            head.payload
        )
    }
}

impl fmt::Display for StatementLines {
    fn fmt<W: fmt::Write>(&self, f: &mut fmt::Formatter<W>) -> fmt::Result {
        let StatementLines(statement, name) = *self;
        writeln!(
            f,
            "    kind {}, height {}, proposer {}, view {}, round {}
    {name} {}",
            u8::from(statement.kind),
            statement.height,
            statement.proposer,
            statement.view.0,
            statement.round.0,
            Hex(&statement.id)
        )
    }
}

impl fmt::Display for CertificateLines<'_> {
    fn fmt<W: fmt::Write>(&self, f: &mut fmt::Formatter<W>) -> fmt::Result {
        let Certificate { statement, part } = self.0;
        write!(
            f,
            "    certificate at {}, {} bytes
{}{}",
            part.at,
            part.bytes.len(),
            StatementLines(statement, "id"),
            Signers(part.bytes.get(STATEMENT_BYTES + 1..).unwrap_or(&[]))
        )
    }
}

impl fmt::Display for Signed<'_> {
    fn fmt<W: fmt::Write>(&self, f: &mut fmt::Formatter<W>) -> fmt::Result {
        writeln!(f, "    signer {}, tag {}", self.0, Hex(self.1))
    }
}

impl fmt::Display for Signers<'_> {
    fn fmt<W: fmt::Write>(&self, f: &mut fmt::Formatter<W>) -> fmt::Result {
        let (entries, _) = self.0.as_chunks::<5>();
        for entry in entries {
            write!(f, "{}", Signed(entry[0], &entry[1..]))?;
        }
        Ok(())
    }
}

impl fmt::Display for Shared<'_> {
    fn fmt<W: fmt::Write>(&self, f: &mut fmt::Formatter<W>) -> fmt::Result {
        writeln!(
            f,
            "    member {}, value {}, the dealer's tag {}",
            self.0,
            self.1,
            Hex(self.2)
        )
    }
}

impl fmt::Display for Sharers<'_> {
    fn fmt<W: fmt::Write>(&self, f: &mut fmt::Formatter<W>) -> fmt::Result {
        let (entries, _) = self.0.as_chunks::<7>();
        for entry in entries {
            let value = u16::from_be_bytes([entry[1], entry[2]]);
            write!(f, "{}", Shared(entry[0], value, &entry[3..]))?;
        }
        Ok(())
    }
}
