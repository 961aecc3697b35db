// Layers over other rules.
ghost use Rattle.std.specs.Prelude.{bit_and};
ghost use Rattle.sharing.specs.Layers.{first_then, only_among};
ghost use Rattle.sharing.specs.Kept.Keeping.{lawful_cut, lawful_then, lawful_accepted};

use crate::rule::SharingRule;
use refusal::Refusal;

// A rule with the set cut to a fixed one.
#[derive(Clone, Copy)]
pub struct OnlyAmong<R> {
    pub among: u64,
    pub rule: R,
}

impl<R: SharingRule> SharingRule for OnlyAmong<R> {
    ghost meaning = { λ layer. only_among layer.among (R.SharingRule.meaning layer.rule) };

    ghost lawful = { λ layer s xs ok. lawful_cut s layer.among xs _ (R.SharingRule.lawful layer.rule (bit_and s layer.among) xs ok) };

    fn share(&self, set: u64, rests: &mut [i32]) -> Result<(), Refusal> {
        self.rule.share(set & self.among, rests)
    }
}

// Two rules, the second on the rests that the first left.
#[derive(Clone, Copy)]
pub struct FirstThen<F, S> {
    pub first: F,
    pub second: S,
}

impl<F: SharingRule, S: SharingRule> SharingRule for FirstThen<F, S> {
    ghost meaning = { λ layer. first_then (F.SharingRule.meaning layer.first) (S.SharingRule.meaning layer.second) };

    ghost lawful = { λ layer s xs ok.
        let p = F.SharingRule.lawful layer.first s xs ok in
        lawful_then s xs _ _ p (S.SharingRule.lawful layer.second s _ (lawful_accepted s xs _ p ok)) };

    fn share(&self, set: u64, rests: &mut [i32]) -> Result<(), Refusal> {
        self.first.share(set, rests)?;
        self.second.share(set, rests)
    }
}
