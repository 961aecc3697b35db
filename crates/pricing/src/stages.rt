// The four stages of the method.
ghost use Rattle.std.specs.Prelude.{◌≡◌, ◌^◌, ◌<◌, ◌≤◌, true, unsigned_abs};
ghost use Rattle.pricing.specs.Limits.{activations_in_range, base_grain, imbalance_limit, offer_limit};
ghost use Rattle.pricing.specs.Fractions.{Bounded};
ghost use Rattle.pricing.specs.Stages.{side_of, activations_on, bid_on, toward as toward_of, activated_kwh, cost as cost_of, activated_cost, base_of, margin_quarters, beside_index, scaled as scaled_of, scaled_if_large, candidates_of, goes_first, preferred as preferred_of, decisive as decisive_of};

use crate::derivation::{Base, Candidate, Candidates, Origin, Side, Stage};
use crate::figures::{Activation, Activations, SystemFigures};
use crate::fraction::Fraction;
use refusal::Reason;
use std::cmp::Ordering;

// The system imbalance beyond which the base is scaled.
const LARGE_IMBALANCE_KWH: u32 = 50_000;

// The least margin on the index, in stotinki per MWh.
const LEAST_MARGIN: u32 = 1_000;

impl SystemFigures {
    // The side that the system is on; none where it is in balance.
    pub(crate) fn side(&self) -> Option<Side>
        ensures { result ≡ side_of self.now.imbalance_kwh }
    {
        match self.imbalance_kwh.cmp(&0) {
            Ordering::Greater => Some(Side::Surplus),
            Ordering::Less => Some(Side::Shortage),
            Ordering::Equal => None,
        }
    }

    // By side, as the bid below is; one picks a struct and one an option, so neither serves for both.
    pub(crate) fn activations_on(&self, side: Side) -> Activations
        ensures { result ≡ activations_on side self.now }
    {
        match side {
            Side::Surplus => self.downward,
            Side::Shortage => self.upward,
        }
    }

    pub(crate) fn bid_on(&self, side: Side) -> Option<i32>
        ensures { result ≡ bid_on side self.now }
    {
        match side {
            Side::Surplus => self.downward_bid,
            Side::Shortage => self.upward_bid,
        }
    }
}

impl Side {
    // An amount, down at a surplus and up at a shortage.
    fn toward(self, amount: u64) -> i64
        requires { amount < 2 ^ 63 }
        ensures { result ≡ toward_of self amount }
    {
        match self {
            Side::Surplus => -(amount as i64),
            Side::Shortage => amount as i64,
        }
    }

    // Whether the first of two comes before the second: at a surplus the lesser, at a shortage the greater.
    fn goes_first(self, one: Fraction, other: Fraction) -> bool
        ensures { result ≡ goes_first self one other }
    {
        match self {
            Side::Surplus => one.at_most(other),
            Side::Shortage => other.at_most(one),
        }
    }

    fn preferred(self, one: Candidate, other: Candidate) -> Candidate
        ensures { result ≡ preferred_of self one other }
    {
        if self.goes_first(one.value, other.value) {
            one
        } else {
            other
        }
    }
}

impl Activation {
    fn cost(&self) -> i64
        ensures { result ≡ cost_of self.now }
    {
        i64::from(self.price) * i64::from(self.kwh)
    }
}

impl Activations {
    fn kwh(&self) -> u64
        ensures { result ≡ activated_kwh self.now }
    {
        u64::from(self.automatic.kwh)
            + (u64::from(self.manual.kwh) + u64::from(self.replacement.kwh))
    }

    fn cost(&self) -> i64
        requires { activations_in_range self.now ≡ true }
        ensures { result ≡ activated_cost self.now }
    {
        self.automatic.cost() + (self.manual.cost() + self.replacement.cost())
    }
}

// First: the mean price of what was activated, weighted by energy, or else the bid.
pub(crate) fn base(activations: &Activations, bid: Option<i32>) -> Result<Base, Reason>
    requires { activations_in_range activations.now ≡ true }
    ensures { result ≡ base_of activations.now bid }
{
    let kwh = activations.kwh();
    if kwh > 0 {
        let value = Fraction {
            numerator: activations.cost(),
            denominator: kwh,
        };
        return Ok(Base {
            origin: Origin::Mean,
            value,
        });
    }
    let price = bid.ok_or(Reason::NoBase)?;
    let value = Fraction {
        numerator: i64::from(price),
        denominator: 1,
    };
    Ok(Base {
        origin: Origin::Bid,
        value,
    })
}

// A quarter of the index's size, but at least 1,000; in quarters.
fn margin_quarters(index: i32) -> u64
    ensures { result ≡ margin_quarters index }
{
    u64::from(index.unsigned_abs().max(4 * LEAST_MARGIN))
}

// A quarter of an hour in which the system is off balance, with figures in range.
#[derive(Clone, Copy)]
pub(crate) struct OffBalance {
    pub(crate) side: Side,
    pub(crate) imbalance_kwh: u32,
    pub(crate) index: i32,
    pub(crate) base: Base,
    ghost few: { imbalance_kwh ≤ imbalance_limit },
    ghost near: { unsigned_abs index ≤ offer_limit },
    ghost bounded: { Bounded offer_limit base_grain base.value },
}

impl OffBalance {
    // Second: the index and its margin, on the side's way.
    fn beside_index(self) -> Fraction
        ensures { result ≡ beside_index self.side self.index }
    {
        Fraction {
            numerator: 4 * i64::from(self.index) + self.side.toward(margin_quarters(self.index)),
            denominator: 4,
        }
    }

    // The base's size in proportion to the imbalance.
    fn scaled(self) -> Fraction
        ensures { result ≡ scaled_of self.side self.imbalance_kwh self.base.value }
    {
        let Fraction {
            numerator,
            denominator,
        } = self.base.value;
        Fraction {
            numerator: self
                .side
                .toward(u64::from(self.imbalance_kwh) * numerator.unsigned_abs()),
            denominator: u64::from(LARGE_IMBALANCE_KWH) * denominator,
        }
    }

    // Third: that only if the imbalance is large.
    fn scaled_if_large(self) -> Option<Fraction>
        ensures { result ≡ scaled_if_large self.side self.imbalance_kwh self.base.value }
    {
        if self.imbalance_kwh > LARGE_IMBALANCE_KWH {
            Some(self.scaled())
        } else {
            None
        }
    }

    pub(crate) fn candidates(self) -> Candidates
        ensures { result ≡ candidates_of self.side self.imbalance_kwh self.index self.base }
    {
        Candidates {
            base: self.base,
            index: self.beside_index(),
            scaled: self.scaled_if_large(),
        }
    }
}

impl Side {
    // Fourth: the least of the candidates at a surplus, the greatest at a shortage.
    pub(crate) fn decisive(self, candidates: Candidates) -> Candidate
        ensures { result ≡ decisive_of self candidates }
    {
        let base = Candidate {
            stage: Stage::First,
            value: candidates.base.value,
        };
        let index = Candidate {
            stage: Stage::Second,
            value: candidates.index,
        };
        let of_two = self.preferred(base, index);
        let Some(value) = candidates.scaled else {
            return of_two;
        };
        let scaled = Candidate {
            stage: Stage::Third,
            value,
        };
        self.preferred(of_two, scaled)
    }
}
