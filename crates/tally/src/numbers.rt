ghost use Rattle.std.specs.Prelude.{◌≡◌, ℕ, ◌==◌, nat_lt};
ghost use Rattle.tally.specs.ByKey.{by_number};

use super::likeness::Item;

/// An item that ranks by a number, and is alike to those of the same number.
pub trait ByNumber: Copy {
    ghost number: { Self → ℕ };

    fn number(&self) -> u32
        ensures { result ≡ number self.now };
}

impl<T: ByNumber> Item for T {
    ghost above = { λ x y. nat_lt (T.number y) (T.number x) };

    ghost alike = { λ x y. (T.number x == T.number y) };

    ghost likeness = { by_number T.number };

    fn ranks_above(&self, other: &T) -> bool {
        other.number() < self.number()
    }

    fn is_like(&self, other: &T) -> bool {
        self.number() == other.number()
    }
}

/// The simplest item: one that is only its number.
#[derive(Clone, Copy, PartialEq, Eq, PartialOrd, Ord)]
pub struct Numbered {
    pub number: u32,
}

impl ByNumber for Numbered {
    ghost number = { λ x. x.number };

    fn number(&self) -> u32 {
        self.number
    }
}
