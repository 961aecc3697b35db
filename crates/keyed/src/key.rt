// What entries are found under.
ghost use Rattle.std.specs.Prelude.{◌≡◌, ℕ, Bool, nat_eq};
ghost use Rattle.keyed.specs.Keys.{Exact, number_exact};

pub trait Key: Copy {
    ghost same: { Self → Self → Bool };

    ghost spread: { Self → ℕ };

    // Whether two keys are one. A kind of key brings its own test, so that nothing is asked of its `==`.
    fn is(&self, other: &Self) -> bool
        ensures { result ≡ same self.now other.now };

    // A number to begin a search with. Any will do; the fewer keys share one, the shorter the search.
    fn spread(&self) -> usize
        ensures { result ≡ spread self.now };

    // The test tells exactly whether two keys are one.
    ghost exact: { Exact same };
}

impl Key for u32 {
    ghost same = { nat_eq };

    ghost spread = { λ number. number };

    ghost exact = { number_exact };

    fn is(&self, other: &u32) -> bool {
        *self == *other
    }

    fn spread(&self) -> usize {
        *self as usize
    }
}
