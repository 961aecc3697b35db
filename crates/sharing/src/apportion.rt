// Ways of sharing an amount out among members by what each has.
// The trait stays in the crate, since its method asks what only the netting here is known to meet.
ghost use Rattle.std.specs.Prelude.{◌≡◌, ℕ, ◌^◌, ◌<◌, ◌≤◌, List, sum};
ghost use Rattle.sharing.specs.Ways.{Modest, SharedOut};

pub(crate) trait Apportion {
    // How much each member gets of an amount, by what each has.
    ghost shares: { Self → ℕ → List ℕ → List ℕ };

    // Replaces what each member has by his share of the amount.
    fn apportion(&self, amount: u32, own: &mut [u32])
        requires enough { amount ≤ sum own.old }
        requires modest { Modest own.old }
        ensures { own.new ≡ shares self.now amount own.old };

    ghost whole: { (way : Self) (n : ℕ) (xs : List ℕ) → Modest xs → n ≤ sum xs → SharedOut n xs (shares way n xs) };
}

// What all members have together.
pub(crate) fn total_of(own: &[u32]) -> u32
    requires { sum own.now < 2 ^ 32 }
    ensures { result ≡ sum own.now }
{
    own.iter().sum()
}
