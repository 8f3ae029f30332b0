ghost use Rattle.std.specs.Prelude.{◌≡◌, Bool};
ghost use Rattle.tally.specs.Likeness.{Likeness};

/// An item of a tally. Items have ranks, which are only ever compared, and items that are alike count together.
pub trait Item: Copy {
    // above x y: x ranks above y
    ghost above: { Self → Self → Bool };

    ghost alike: { Self → Self → Bool };

    fn ranks_above(&self, other: &Self) -> bool
        ensures { result ≡ above self.now other.now };

    fn is_like(&self, other: &Self) -> bool
        ensures { result ≡ alike self.now other.now };

    ghost likeness: { Likeness above alike };
}
