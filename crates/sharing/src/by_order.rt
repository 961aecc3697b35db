// The rule that nets in member order, each member all he has while the amount lasts.
ghost use Rattle.sharing.specs.InOrder.{shares_in_order};
ghost use Rattle.sharing.specs.Kept.Orders.{order_shared_out};

use crate::apportion::Apportion;
use crate::netting::Netting;

// In member order, each the smaller of what he has and what is left.
#[derive(Clone, Copy)]
pub struct ByOrder;

pub type InOrder = Netting<ByOrder>;

impl InOrder {
    pub const RULE: Self = Netting { by: ByOrder };
}

impl Apportion for ByOrder {
    ghost shares = { λ _. shares_in_order };

    ghost whole = { λ way n xs m h. order_shared_out n xs h };

    fn apportion(&self, amount: u32, own: &mut [u32]) {
        let mut left = amount;
        for x in own.iter_mut() {
            let share = left.min(*x);
            *x = share;
            left -= share;
        }
    }
}
