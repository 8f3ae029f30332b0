// The text sheet: how a member stands, in ten lines.
ghost use Rattle.std.specs.Prelude.{◌≡◌, ◌+◌, ◌≤◌, ◌++◌, length, IfOk};
ghost use Rattle.arrayvec.specs.ArrayString.{array_string_len};
ghost use Rattle.member.specs.Sheet.{stage_word, rank_text, line, sheet_text, sheet, sheet_out};

use crate::state::Member;
use crate::types::{Refusal, Stage};
use arrayvec::ArrayString;
use blocks::layout::put;
use blocks::rank::Rank;
use itoa::{Buffer, Integer};
use table::committed::committed_count;
use table::held::Held;

// The most bytes of a sheet.
const SHEET_BYTES: usize = 256;

// The most bytes of a rank there: two numbers of ten digits, one of three, and two commas.
const RANK_BYTES: usize = 25;

impl Stage {
    fn word(self) -> &'static str
        ensures word { result.now ≡ stage_word self }
        ensures short { length result.now ≤ 8 }
    {
        match self {
            Stage::Steady => "steady",
            Stage::TimedOut => "timedout",
            Stage::InFallback => "fallback",
        }
    }
}

// The text of a sheet.
type Text = ArrayString<SHEET_BYTES>;

// Adds a number in decimal.
fn push_number<I: Integer, const N: usize>(text: &mut ArrayString<N>, n: I)
    requires { array_string_len text.old + I.MAX_STR_LEN ≤ N }
    ensures bytes { text.new.bytes ≡ text.old.bytes ++ I.text n }
    ensures within { array_string_len text.new ≤ array_string_len text.old + I.MAX_STR_LEN }
{
    text.push_str(Buffer::new().format(n));
}

// A rank's view, kind and round.
#[tactic(auto, using(std::proofs::lemmas::List::append_assoc, crate::proofs::Sheets::rank_short), unfolding(crate::specs::Sheet::rank_text))]
fn rank_text(rank: Rank) -> ArrayString<RANK_BYTES>
    ensures bytes { result.bytes ≡ rank_text rank }
    ensures most { length result.bytes ≤ 23 }
{
    let mut text = ArrayString::new();
    push_number(&mut text, rank.view.0);
    text.push(',');
    push_number(&mut text, u8::from(rank.kind));
    text.push(',');
    push_number(&mut text, rank.round.0);
    text
}

// Adds a line `key=value`.
#[tactic(auto, using(std::proofs::lemmas::List::append_assoc), unfolding(crate::specs::Sheet::line))]
fn push_line(text: &mut Text, key: &str, value: &str)
    requires { array_string_len text.old + length key.now + length value.now + 2 ≤ 256 }
    ensures bytes { text.new.bytes ≡ text.old.bytes ++ line key.now value.now }
    ensures within { array_string_len text.new ≤ array_string_len text.old + length key.now + length value.now + 2 }
{
    text.push_str(key);
    text.push('=');
    text.push_str(value);
    text.push('\n');
}

// The same, with a number for the value.
fn number_line<I: Integer>(text: &mut Text, key: &str, n: I)
    requires { array_string_len text.old + length key.now + I.MAX_STR_LEN + 2 ≤ 256 }
    ensures bytes { text.new.bytes ≡ text.old.bytes ++ line key.now (I.text n) }
    ensures within { array_string_len text.new ≤ array_string_len text.old + length key.now + I.MAX_STR_LEN + 2 }
{
    push_line(text, key, Buffer::new().format(n));
}

impl Member {
    // The ten lines.
    #[tactic(auto, using(std::proofs::lemmas::List::append_assoc), unfolding(crate::specs::Sheet::sheet_text))]
    fn lines(&self, table: &[Held]) -> Text
        ensures { result.bytes ≡ sheet_text self.now table.now }
    {
        let mut text = ArrayString::new();
        number_line(&mut text, "member", self.site.own);
        number_line(&mut text, "members", self.site.members);
        number_line(&mut text, "view", self.phase.view.0);
        push_line(&mut text, "stage", self.phase.stage.word());
        number_line(&mut text, "round", self.chain.round.0);
        number_line(&mut text, "voted", self.phase.voted.0);
        push_line(&mut text, "lock", rank_text(self.chain.lock).as_str());
        push_line(
            &mut text,
            "high",
            rank_text(self.chain.high.rank()).as_str(),
        );
        number_line(&mut text, "blocks", self.held);
        number_line(
            &mut text,
            "committed",
            committed_count(table, self.chain.last),
        );
        text
    }

    // Writes how the member stands to the start of a buffer of 256 bytes, as ten lines `key=value`: the length of the text.
    pub fn sheet(&self, table: &[Held], out: &mut [u8]) -> Result<usize, Refusal>
        ensures answer { result ≡ sheet self.now table.now out.old }
        ensures bytes { out.new ≡ sheet_out self.now table.now out.old }
        ensures within { IfOk result (λ n. n ≤ 256) }
    {
        if table.len() != self.site.places || out.len() != SHEET_BYTES {
            return Err(Refusal::Sizes);
        }
        let text = self.lines(table);
        Ok(put(out, 0, text.as_str().as_bytes()))
    }
}
