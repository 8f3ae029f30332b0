// The size of a group of members.
ghost use Rattle.std.specs.Prelude.{◌≡◌, ◌≤◌};
ghost use Rattle.attest.specs.Limits.{max_members};

use crate::attestor::MAX_MEMBERS;

/// How many members a group has: 1 to `MAX_MEMBERS`.
#[derive(Clone, Copy, Debug, PartialEq, Eq)]
pub struct GroupSize {
    number: u8,
    ghost some: { 1 ≤ number },
    ghost few: { number ≤ max_members },
}

/// The number is 0 or above the most.
#[derive(Clone, Copy, Debug, PartialEq, Eq)]
pub struct NoGroupSize;

impl GroupSize {
    pub fn number(&self) -> u8
        ensures { result ≡ self.now.number }
    {
        self.number
    }
}

impl TryFrom<u8> for GroupSize {
    ghost use Rattle.attest.specs.Group.{Sized};

    type Error = NoGroupSize;

    ghost try_from_gives = { Sized };

    fn try_from(number: u8) -> Result<GroupSize, NoGroupSize> {
        if number == 0 || number > MAX_MEMBERS {
            return Err(NoGroupSize);
        }
        Ok(GroupSize { number })
    }
}
