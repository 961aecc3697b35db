// The interface of a sharing rule, and the check that every rule begins with.
ghost use Rattle.std.specs.Prelude.{◌≡◌, ℕ, List, ℤ, Ok};
ghost use Rattle.sharing.specs.Law.{Lawful};
ghost use Rattle.sharing.specs.Verdict.{verdict, outcome};

use refusal::{Layer, Reason, Refusal};

pub const MOST_MEMBERS: usize = 64;

// A rest lies from minus to plus this limit.
pub const REST_LIMIT_KWH: u32 = 500_000;

pub trait SharingRule {
    // What the rule makes of a set and a list of rests.
    ghost meaning: { Self → ℕ → List ℤ → List ℤ };

    // Replaces the rests by what the rule makes of them, or refuses and leaves them as they were.
    // Set and rests stand apart, since a layer cuts the set and hands the rests on.
    fn share(&self, set: u64, rests: &mut [i32]) -> Result<(), Refusal>
        ensures answer { result ≡ verdict rests.old }
        ensures after { rests.new ≡ outcome (meaning self.now set) rests.old };

    ghost lawful: { (rule : Self) (s : ℕ) (xs : List ℤ) → verdict xs ≡ Ok tt → Lawful s xs (meaning rule s xs) };
}

// Whether a rule accepts a list of rests.
pub(crate) fn check(rests: &[i32]) -> Result<(), Refusal>
    ensures { result ≡ verdict rests.now }
{
    if rests.len() > MOST_MEMBERS {
        return Err(Refusal::naming_nobody(Reason::WrongLength, Layer::Rule));
    }
    for rest in rests {
        if rest.unsigned_abs() > REST_LIMIT_KWH {
            return Err(Refusal::naming_nobody(Reason::FigureOutOfRange, Layer::Rule));
        }
    }
    Ok(())
}
