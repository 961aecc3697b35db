// The rules that net as much as the smaller side of a set has.
ghost use Rattle.std.specs.Prelude.{◌≡◌, ℕ, ◌<◌, ◌≤◌, length, pos, ◌+ℤ◌, ◌-ℤ◌, Ok, OnOk, slice_index, slice_index_or, unsigned_abs};
ghost use Rattle.sharing.specs.Netting.{NetsAll, netting, taken_off};
ghost use Rattle.sharing.specs.Verdict.{verdict, outcome, rest_limit};
ghost use Rattle.sharing.specs.Kept.Netted.{netting_lawful};

use crate::apportion::{Apportion, total_of};
use crate::rule::{MOST_MEMBERS, SharingRule, check};
use crate::side::Side;
use refusal::Refusal;

// A rule by which each side nets the smaller of the set's surplus and its shortage, shared out by a way of apportioning.
#[derive(Clone, Copy)]
pub struct Netting<P> {
    pub by: P,
}

// The rest of one member without what he nets on either side.
fn rest_left(rest: i32, surplus: u32, shortage: u32) -> i32
    requires modest { unsigned_abs rest ≤ rest_limit }
    requires surplus_modest { surplus ≤ rest_limit }
    requires shortage_modest { shortage ≤ rest_limit }
    ensures { result ≡ rest -ℤ pos surplus +ℤ pos shortage }
{
    rest - surplus as i32 + shortage as i32
}

// Takes what each member nets on either side off his rest.
fn take_off(rests: &mut [i32], surplus: &[u32], shortage: &[u32])
    requires surplus_long { length surplus.now ≡ length rests.old }
    requires shortage_long { length shortage.now ≡ length rests.old }
    requires modest { (k : ℕ) → k < length rests.old → unsigned_abs (slice_index_or rests.old k (pos 0)) ≤ rest_limit }
    requires surplus_modest { (k : ℕ) → slice_index surplus.now k ≤ rest_limit }
    requires shortage_modest { (k : ℕ) → slice_index shortage.now k ≤ rest_limit }
    ensures { rests.new ≡ taken_off rests.old surplus.now shortage.now }
{
    // By index, since a zip over `iter_mut` tells a proof nothing of what is written.
    for (i, rest) in rests.iter_mut().enumerate() {
        *rest = rest_left(*rest, surplus[i], shortage[i]);
    }
}

// Nets the rests of a list that a rule accepts, on both sides by the same way of apportioning.
fn net<P: Apportion>(by: &P, set: u64, rests: &mut [i32])
    requires { verdict rests.old ≡ Ok tt }
    ensures { rests.new ≡ netting (P.Apportion.shares by.now) set rests.old }
{
    let members = rests.len();
    let mut surplus_room = [0u32; MOST_MEMBERS];
    let mut shortage_room = [0u32; MOST_MEMBERS];
    let surplus = &mut surplus_room[0..members];
    let shortage = &mut shortage_room[0..members];
    Side::Surplus.list(set, rests, surplus);
    Side::Shortage.list(set, rests, shortage);
    let amount = total_of(surplus).min(total_of(shortage));
    by.apportion(amount, surplus);
    by.apportion(amount, shortage);
    take_off(rests, surplus, shortage);
}

impl<P: Apportion> SharingRule for Netting<P> {
    ghost meaning = { λ rule. netting (P.Apportion.shares rule.by) };

    ghost lawful = { λ rule s xs ok. netting_lawful (P.Apportion.shares rule.by) (P.Apportion.whole rule.by) s xs ok };

    // Beyond what every rule promises: the members net together all that can be netted.
    fn share(&self, set: u64, rests: &mut [i32]) -> Result<(), Refusal>
        ensures answer { result ≡ verdict rests.old }
        ensures after { rests.new ≡ outcome (netting (P.Apportion.shares self.now.by) set) rests.old }
        ensures nets_all { OnOk result (NetsAll set rests.old rests.new) }
    {
        check(rests)?;
        net(&self.by, set, rests);
        Ok(())
    }
}
