// Exact fractions: what a price is chosen from before it is rounded.
ghost use Rattle.std.specs.Prelude.{◌≡◌, pos, ◌*ℤ◌};
ghost use Rattle.rounding.specs.Nearest.{rounded as rounded_to};
ghost use Rattle.pricing.specs.Fractions.{at_most};

#[derive(Clone, Copy)]
pub struct Fraction {
    pub numerator: i64,
    pub denominator: u64,
}

// Each width has a product of its own: a trait over widths is no plainer.
fn product(factor: i64, times: u64) -> i128
    ensures { result ≡ factor *ℤ pos times }
{
    i128::from(factor) * i128::from(times)
}

// No PartialOrd: over a denominator of 0, which a caller may write, the comparison is no order.
impl Fraction {
    // Whether this one is at most the other, where both denominators are above 0.
    pub(crate) fn at_most(self, other: Fraction) -> bool
        ensures { result ≡ at_most self other }
    {
        product(self.numerator, other.denominator) <= product(other.numerator, self.denominator)
    }

    // The nearest whole number; none where the denominator is 0.
    pub fn rounded(self) -> Option<i64>
        ensures { result ≡ rounded_to self.numerator self.denominator }
    {
        rounding::rounded(self.numerator, self.denominator)
    }
}
