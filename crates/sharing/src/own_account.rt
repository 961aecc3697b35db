// The rule by which every member settles his own imbalance: nothing is netted.
ghost use Rattle.sharing.specs.Layers.{own_account};
ghost use Rattle.std.proofs.Common.{rules};

use crate::rule::{SharingRule, check};
use refusal::Refusal;

#[derive(Clone, Copy)]
pub struct OwnAccount;

impl SharingRule for OwnAccount {
    ghost meaning = { λ _. own_account };

    ghost lawful = { Prim.search rules };

    fn share(&self, _set: u64, rests: &mut [i32]) -> Result<(), Refusal> {
        check(rests)
    }
}
