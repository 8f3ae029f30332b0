// Shares, and what is wrong with those that elect nobody.
ghost use Rattle.std.specs.Prelude.{◌≡◌, ◌<◌, MatchResult};
ghost use Rattle.coin.specs.Shares.{size, Tells, Member, AllKnown, Apart, AllWithin, WellFormed, Refused, refusal, is_member, member_of};

/// What one member holds of a view's coin.
#[derive(Clone, Copy, PartialEq, Eq, Debug)]
pub struct Share {
    pub member: u8,
    pub value: u16,
}

/// Why shares elect nobody, in the order of the tests.
#[derive(Clone, Copy, PartialEq, Eq, Debug)]
pub enum ElectError {
    /// not f + 1 shares
    Count,
    /// a member that is not one of 1 to n
    Unknown,
    /// two shares of one member
    Repeated,
    /// a value above the coin's greatest
    Excess,
}

/// The number under which a call that meets the error is refused.
impl From<ElectError> for u8 {
    ghost from_gives = { λ error number. number ≡ refusal error };

    fn from(error: ElectError) -> u8 {
        use ElectError::{Count, Excess, Repeated, Unknown};
        match error {
            Count | Unknown | Repeated | Excess => 2,
        }
    }
}

/// How many shares elect: f + 1.
pub fn share_count(n: u8) -> u8
    ensures { result ≡ size n }
{
    n.saturating_sub(1) / 3 + 1
}

/// Whether the number is a member's: one of 1 to n.
pub fn is_member(n: u8, member: u8) -> bool
    ensures tells { Tells result (Member n member) }
    ensures is { result ≡ is_member n member }
{
    0 < member && member <= n
}

fn members_known(n: u8, shares: &[Share]) -> bool
    ensures { Tells result (AllKnown n shares.now) }
{
    shares.iter().all(|share| is_member(n, share.member))
}

fn members_apart(shares: &[Share]) -> bool
    ensures { Tells result (Apart shares.now) }
{
    match shares {
        [] => true,
        [first, rest @ ..] => {
            rest.iter().all(|other| other.member != first.member) && members_apart(rest)
        }
    }
}

fn values_within(greatest: u16, shares: &[Share]) -> bool
    ensures { Tells result (AllWithin greatest shares.now) }
{
    shares.iter().all(|share| share.value <= greatest)
}

// Whether the shares are well formed, or else what is first wrong with them.
pub(crate) fn examine(n: u8, greatest: u16, shares: &[Share]) -> Result<(), ElectError>
    ensures { MatchResult result (λ _. WellFormed n greatest shares.now) (λ e. Refused n greatest shares.now e) }
{
    if shares.len() != share_count(n) as usize {
        return Err(ElectError::Count);
    }
    if !members_known(n, shares) {
        return Err(ElectError::Unknown);
    }
    if !members_apart(shares) {
        return Err(ElectError::Repeated);
    }
    if !values_within(greatest, shares) {
        return Err(ElectError::Excess);
    }
    Ok(())
}

// The member that a number elects.
pub(crate) fn member_of(n: u8, number: u32) -> u8
    requires { 0 < n }
    ensures { result ≡ member_of n number }
{
    (number % n as u32) as u8 + 1
}
