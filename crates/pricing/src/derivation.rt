// How a price came about: the side that the system was on, the candidates, and the one that decided.
ghost use Rattle.std.specs.Prelude.{◌≡◌};
ghost use Rattle.pricing.specs.Prices.{price_in};

use crate::fraction::Fraction;

// Not the side that a member is on, which has other methods.
#[derive(Clone, Copy)]
pub enum Side {
    Surplus,
    Shortage,
}

// Whether the base is the mean price of what was activated, or the bid since nothing was.
#[derive(Clone, Copy)]
pub enum Origin {
    Mean,
    Bid,
}

#[derive(Clone, Copy)]
pub struct Base {
    pub origin: Origin,
    pub value: Fraction,
}

#[derive(Clone, Copy)]
pub struct Candidates {
    pub base: Base,
    // the index and its margin
    pub index: Fraction,
    // the base, scaled by an imbalance that is large
    pub scaled: Option<Fraction>,
}

// The stage of the method that gives a candidate: the base, the index, the scaled base.
#[derive(Clone, Copy)]
pub enum Stage {
    First,
    Second,
    Third,
}

#[derive(Clone, Copy)]
pub struct Candidate {
    pub stage: Stage,
    pub value: Fraction,
}

#[derive(Clone, Copy)]
pub enum Derivation {
    Balanced {
        price: i32,
    },
    Decided {
        side: Side,
        imbalance_kwh: u32,
        candidates: Candidates,
        stage: Stage,
        price: i32,
    },
}

impl Derivation {
    pub fn price(self) -> i32
        ensures { result ≡ price_in self }
    {
        match self {
            Derivation::Balanced { price } | Derivation::Decided { price, .. } => price,
        }
    }
}
