// What a member keeps of each proposer's fallback chain, and how it changes.
ghost use Rattle.std.specs.Prelude.{◌≡◌};
ghost use Rattle.member.specs.Record.{above_recorded, recorded, records, record_rows};
ghost use Rattle.member.specs.States.{empty_row, row_of};
ghost use Rattle.member.specs.Votes.{voted_row};

use blocks::head::Head;
use blocks::rank::Round;
use blocks::statement::Statement;

// What a member keeps of one proposer's fallback chain in its view: the height and the round that it voted for last, and what
// the highest recorded certificate certifies.
#[derive(Clone, Copy)]
pub struct Row {
    pub height: u8,
    pub round: Round,
    pub certificate: Option<Statement>,
}

impl Row {
    pub(crate) fn empty() -> Row
        ensures { result ≡ empty_row }
    {
        Row {
            height: 0,
            round: Round(0),
            certificate: None,
        }
    }

    // Whether a certificate ranks above the recorded one, if any.
    pub(crate) fn takes(&self, statement: &Statement) -> bool
        ensures { result ≡ above_recorded self.now.certificate statement.now }
    {
        self.certificate
            .is_none_or(|recorded| recorded.rank() < statement.rank())
    }

    // The certificate is recorded.
    pub(crate) fn record(&mut self, statement: &Statement)
        ensures { self.new ≡ recorded self.old statement.now }
    {
        self.certificate = Some(*statement);
    }

    // A vote for the block is remembered.
    pub(crate) fn vote(&mut self, head: &Head)
        ensures { self.new ≡ voted_row self.old head.now }
    {
        self.height = head.height;
        self.round = head.round;
    }
}

// The row of a member, by its number.
pub(crate) fn row_of(rows: &[Row; 13], member: u8) -> Row
    ensures { result ≡ row_of rows.now member }
{
    let i = usize::from(member.saturating_sub(1));
    rows.get(i).copied().unwrap_or(Row::empty())
}

// Whether the certificate ranks above the one in its proposer's row.
pub(crate) fn records(rows: &[Row; 13], statement: &Statement) -> bool
    ensures { result ≡ records rows.now statement.now }
{
    row_of(rows, statement.proposer).takes(statement)
}

// A fallback certificate of this view is kept in its proposer's row, if it ranks above the one there.
pub(crate) fn record_in(rows: &mut [Row; 13], statement: &Statement)
    ensures { rows.new ≡ record_rows rows.old statement.now }
{
    let i = usize::from(statement.proposer.saturating_sub(1));
    if i < 13 && rows[i].takes(statement) {
        rows[i].record(statement);
    }
}
