// The rule that nets in proportion to what each member has.
ghost use Rattle.std.specs.Prelude.{◌≡◌, OnOk};
ghost use Rattle.sharing.specs.Proportional.{ByWeight, proportional, shares_in_proportion};
ghost use Rattle.sharing.specs.Verdict.{verdict, outcome};
ghost use Rattle.sharing.specs.Kept.Proportions.{proportion_shared_out};

use crate::apportion::{Apportion, total_of};
use crate::netting::Netting;
use crate::rule::SharingRule;
use refusal::Refusal;

// Each his part of the amount, by his part of what all have.
#[derive(Clone, Copy)]
pub struct ByProportion;

pub type Proportional = Netting<ByProportion>;

impl Proportional {
    pub const RULE: Self = Netting { by: ByProportion };
}

impl Apportion for ByProportion {
    ghost shares = { λ _. shares_in_proportion };

    ghost whole = { λ way n xs m h. proportion_shared_out n xs h };

    // A difference of floors of running sums: so no kWh is lost to rounding.
    fn apportion(&self, amount: u32, own: &mut [u32]) {
        let all = u64::from(total_of(own));
        if all == 0 {
            return;
        }
        let mut owned = 0u64;
        let mut given = 0u64;
        for x in own.iter_mut() {
            owned += u64::from(*x);
            let so_far = u64::from(amount) * owned / all;
            *x = (so_far - given) as u32;
            given = so_far;
        }
    }
}

// Shares by the proportional rule: each member nets his weight of what can be netted, to within one kWh.
pub fn share_by_weight(set: u64, rests: &mut [i32]) -> Result<(), Refusal>
    ensures answer { result ≡ verdict rests.old }
    ensures after { rests.new ≡ outcome (proportional set) rests.old }
    ensures weights { OnOk result (ByWeight set rests.old rests.new) }
{
    Proportional::RULE.share(set, rests)
}
