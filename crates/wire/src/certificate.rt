// Certificates as parts of a message.
ghost use Rattle.std.specs.Prelude.{◌≡◌};
ghost use Rattle.std.specs.Option.{option_map};
ghost use Rattle.wire.specs.Certificates.{count_for, read_certificate, certificate_told};

use crate::form::{Form, quorum};
use crate::parts::{Part, read_said};
use blocks::statement::Statement;

// A certificate: what it certifies, and the part of the message that holds it.
#[derive(Clone, Copy)]
pub struct Certificate<'a> {
    pub statement: Statement,
    pub part: Part<'a>,
}

// How many entries a certificate of the statement has.
pub fn count_for(n: u8, statement: &Statement) -> u8
    ensures { result ≡ count_for n statement.now }
{
    if statement.proposer == 0 {
        0
    } else {
        quorum(n)
    }
}

// The certificate that the part of a message is.
pub(crate) fn read_certificate<'a>(form: Form, part: Part<'a>) -> Option<Certificate<'a>>
    ensures { option_map certificate_told result ≡ read_certificate form part.entry.at part.entry.bytes.now }
{
    let (statement, count, entries) = read_said(form.members, part.bytes)?;
    let wanted = form.tags(count_for(form.members, &statement));
    wanted
        .met_by(count, entries)
        .then_some(Certificate { statement, part })
}
