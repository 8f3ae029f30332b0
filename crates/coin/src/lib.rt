// Coins: f + 1 shares of one view elect a member, and any f + 1 shares of a sound dealing elect the same one.
#![tactic(auto)]

ghost use Rattle.std.specs.Prelude.{◌≡◌, ℕ, ◌<◌, ◌≤◌, List};
ghost use Rattle.coin.specs.declared.shares.Share.{Share};
ghost use Rattle.coin.specs.Examples.{Examples};
ghost use Rattle.coin.specs.Shares.{Dealing, Member, WellFormed, Dealt, Answers};

mod drawn_list;
mod polynomial;
mod shares;
#[cfg(test)]
mod tests;

pub use drawn_list::DrawnList;
pub use polynomial::{Polynomial, dealings_are_sound, dealt};
pub use shares::{ElectError, Share, is_member, share_count};

/// A rule that elects a member from the shares of one view.
pub trait Coin {
    // the greatest value of a share
    ghost greatest: { Self → ℕ };

    // the dealings to n members that are sound
    ghost sound: { Self → ℕ → Dealing → Type 0 };

    // who wins each view of a sound dealing to n members
    ghost winner: { (c : Self) (n : ℕ) (d : Dealing) → sound c n d → ℕ → ℕ };

    // whom well-formed shares elect among n members
    ghost elected: { Self → ℕ → List Share → ℕ };

    /// The greatest value that a share may have.
    fn greatest_value(&self) -> u16
        ensures { result ≡ greatest self.now };

    /// The member, one of 1 to n, whom the shares elect. Refused are any number of shares but f + 1, a member that is not one
    /// of 1 to n or stands twice, and a value above the greatest.
    fn elect(&self, n: u8, shares: &[Share]) -> Result<u8, ElectError>
        ensures { Answers n (greatest self.now) shares.now (elected self.now n shares.now) result };

    // a winner is a member
    ghost winners: { (c : Self) (n : ℕ) (d : Dealing) (s : sound c n d) (view : ℕ) → 1 ≤ n → Member n (winner c n d s view) };

    // whoever is elected is a member, out of a sound dealing or not
    ghost among: { (c : Self) (n : ℕ) (shares : List Share) → WellFormed n (greatest c) shares → Member n (elected c n shares) };

    // the coin's law: well-formed shares out of one view of a sound dealing elect that view's winner
    ghost elects: { (c : Self) (n : ℕ) (d : Dealing) (s : sound c n d) (view : ℕ) (shares : List Share) → n < 257 → WellFormed n (greatest c) shares → Dealt d view shares → elected c n shares ≡ winner c n d s view };
}

/// The worked examples follow from the definitions.
pub fn examples_stand() -> u8
    ensures { Examples }
{
    0
}
