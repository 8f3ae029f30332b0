// The drawn list: all members are dealt one number in a view, and it elects the winner.
ghost use Rattle.std.specs.Prelude.{◌≡◌, ◌<◌, length, slice_index_or};
ghost use Rattle.coin.specs.Shares.{nobody};
ghost use Rattle.coin.specs.Drawing.{Equal, lower, lowest, drawn_for, drawn_by};
ghost use Rattle.coin.specs.Members.{someone, member_among};
ghost use Rattle.coin.specs.Lowest;

use crate::Coin;
use crate::shares::{ElectError, Share, examine, member_of};

/// The coin of drawn numbers.
#[derive(Clone, Copy, Debug, PartialEq, Eq)]
pub struct DrawnList;

// The share of the lower-numbered member, the first where both are one's.
fn lower_of(first: Share, second: Share) -> Share
    ensures { result ≡ lower first second }
{
    if second.member < first.member {
        second
    } else {
        first
    }
}

// The share of the lowest-numbered member.
fn lowest_of(shares: &[Share]) -> Share
    requires { 0 < length shares.now }
    ensures { result ≡ lowest (slice_index_or shares.now 0 nobody) shares.now }
{
    shares.iter().copied().fold(shares[0], lower_of)
}

impl Coin for DrawnList {
    ghost greatest = { λ _. 65535 };

    ghost sound = { λ _ n d. Equal n d };

    ghost winner = { λ _ n d _ view. drawn_for n d view };

    ghost elected = { λ _ n shares. drawn_by n shares };

    ghost winners = { λ coin n d s view some. member_among n _ some };

    ghost among = { λ coin n shares formed. member_among n _ (someone n 65535 shares formed) };

    ghost elects = { λ coin n d s view shares small formed dealt. Lowest.elects n d s view shares formed dealt };

    fn greatest_value(&self) -> u16 {
        u16::MAX
    }

    fn elect(&self, n: u8, shares: &[Share]) -> Result<u8, ElectError> {
        examine(n, self.greatest_value(), shares)?;
        Ok(member_of(n, lowest_of(shares).value as u32))
    }
}
