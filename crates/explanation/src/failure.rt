// Why a quarter of an hour could not be explained.
ghost use Rattle.std.specs.Prelude.{◌≡◌, Some};
ghost use Rattle.refusal.specs.declared.layer.Layer.TheVariants.{Run};
ghost use Rattle.refusal.specs.Numbers.{naming_nobody};
ghost use Rattle.explanation.specs.declared.failure.Failure.TheVariants.{Unreadable, Refused};
ghost use Rattle.explanation.specs.Explained.{failure_text};

use description::Problem;
use refusal::{Layer, Reason, Refusal};
use std::error::Error;
use std::fmt;

#[derive(Clone, Copy, Debug)]
pub enum Failure {
    Unreadable(Problem),
    Refused(Refusal),
}

// Converted and printed by hand, since what a derive writes is promised by no clause.
impl From<Problem> for Failure {
    ghost from_gives = { λ problem r. r ≡ Unreadable problem };

    fn from(problem: Problem) -> Failure {
        Failure::Unreadable(problem)
    }
}

// A price is refused by the reason alone; it concerns nobody in the group.
impl From<Reason> for Failure {
    ghost from_gives = { λ reason r. r ≡ Refused (naming_nobody reason Run) };

    fn from(reason: Reason) -> Failure {
        Failure::Refused(Refusal::naming_nobody(reason, Layer::Run))
    }
}

impl From<Refusal> for Failure {
    ghost from_gives = { λ refusal r. r ≡ Refused refusal };

    fn from(refusal: Refusal) -> Failure {
        Failure::Refused(refusal)
    }
}

impl fmt::Display for Failure {
    ghost output = { λ failure. Some (failure_text failure) };

    fn fmt<W: fmt::Write>(&self, f: &mut fmt::Formatter<W>) -> fmt::Result {
        match *self {
            Failure::Unreadable(problem) => write!(f, "{problem}"),
            Failure::Refused(refusal) => write!(f, "{refusal}"),
        }
    }
}

impl Error for Failure {}
