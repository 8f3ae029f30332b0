// Words: what is signed.
ghost use Rattle.std.specs.Prelude.{◌≡◌};
ghost use Rattle.wire.specs.Layouts.{vote_words, timeout_words, share_words};

use blocks::rank::View;
use blocks::statement::Statement;

// The words of a vote for what the statement says.
pub fn vote_words(statement: &Statement) -> [u8; 44]
    ensures { result ≡ vote_words statement.now }
{
    let mut words = [1; 44];
    words[1..].copy_from_slice(&statement.bytes());
    words
}

// The words of a timeout in the view.
pub fn timeout_words(view: View) -> [u8; 5]
    ensures { result ≡ timeout_words view }
{
    let [a, b, c, d] = view.0.to_be_bytes();
    [2, a, b, c, d]
}

// The words that the dealer signs for a member's share of a view's coin.
pub fn share_words(view: View, member: u8, value: u16) -> [u8; 8]
    ensures { result ≡ share_words view member value }
{
    let [a, b, c, d] = view.0.to_be_bytes();
    let [high, low] = value.to_be_bytes();
    [3, a, b, c, d, member, high, low]
}
