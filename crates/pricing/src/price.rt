// The price of a quarter of an hour, and how it came about.
ghost use Rattle.std.specs.Prelude.{◌≡◌, IfOk};
ghost use Rattle.pricing.specs.Fractions.{Bounded, to_nearest};
ghost use Rattle.pricing.specs.Laws.{Lawful};
ghost use Rattle.pricing.specs.Limits.{candidate_grain, price_limit};
ghost use Rattle.pricing.specs.Prices.{decided as decided_of, derivation_of, price_of};
ghost use Rattle.pricing.specs.Stages.{candidates_of};

use crate::derivation::Derivation;
use crate::figures::SystemFigures;
use crate::fraction::Fraction;
use crate::stages::{OffBalance, base};
use refusal::Reason;

fn whole_price(candidate: Fraction) -> i32
    requires { Bounded price_limit candidate_grain candidate }
    ensures { result ≡ to_nearest candidate }
{
    candidate.rounded().unwrap() as i32
}

impl OffBalance {
    fn decided(self) -> Derivation
        ensures { result ≡ decided_of self.side self.imbalance_kwh (candidates_of self.side self.imbalance_kwh self.index self.base) }
    {
        let candidates = self.candidates();
        let decisive = self.side.decisive(candidates);
        Derivation::Decided {
            side: self.side,
            imbalance_kwh: self.imbalance_kwh,
            candidates,
            stage: decisive.stage,
            price: whole_price(decisive.value),
        }
    }
}

// The price of a quarter of an hour with all that led to it.
pub fn derive(figures: &SystemFigures) -> Result<Derivation, Reason>
    ensures { result ≡ derivation_of figures.now }
{
    if !figures.in_range() {
        return Err(Reason::FigureOutOfRange);
    }
    let Some(side) = figures.side() else {
        return Ok(Derivation::Balanced {
            price: figures.index,
        });
    };
    let activations = figures.activations_on(side);
    let base = base(&activations, figures.bid_on(side))?;
    let off_balance = OffBalance {
        side,
        imbalance_kwh: figures.imbalance_kwh.unsigned_abs(),
        index: figures.index,
        base,
    };
    Ok(off_balance.decided())
}

// The price of a quarter of an hour.
pub fn price_of(figures: &SystemFigures) -> Result<i32, Reason>
    ensures value { result ≡ price_of figures.now }
    ensures lawful { IfOk result (Lawful figures.now) }
{
    Ok(derive(figures)?.price())
}
