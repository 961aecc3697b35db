// What can be wrong with a description.
ghost use Rattle.std.specs.Prelude.{◌≡◌, Some};
ghost use Rattle.description.specs.Texts.{fault_text, problem_text};

use std::fmt;

// What is wrong with a line.
#[derive(Clone, Copy, PartialEq, Eq, Debug)]
pub enum Fault {
    UnknownKeyword,
    NumberMissing,
    NotNumber,
    NotEnergy,
    TooMuch,
    Repeated,
}

impl Fault {
    fn words(&self) -> &'static str
        ensures { result.now ≡ fault_text self.now }
    {
        match *self {
            Fault::UnknownKeyword => "unknown keyword",
            Fault::NumberMissing => "a number is missing",
            Fault::NotNumber => "not a whole number of at most nine digits",
            Fault::NotEnergy => "not an energy: at most nine digits and no sign",
            Fault::TooMuch => "more than the keyword takes",
            Fault::Repeated => "given once too often",
        }
    }
}

// Printed by hand, since what a derive prints is promised by no clause.
impl fmt::Display for Fault {
    ghost output = { λ fault. Some (fault_text fault) };

    fn fmt<W: fmt::Write>(&self, f: &mut fmt::Formatter<W>) -> fmt::Result {
        let words = self.words();
        write!(f, "{words}")
    }
}

#[derive(Clone, Copy, PartialEq, Eq, Debug)]
pub enum Problem {
    // lines are numbered from 1
    Line { number: usize, fault: Fault },
    NoImbalance,
    NoIndex,
    NoInternalPrice,
}

// Printed by hand for the same reason.
impl fmt::Display for Problem {
    ghost output = { λ problem. Some (problem_text problem) };

    fn fmt<W: fmt::Write>(&self, f: &mut fmt::Formatter<W>) -> fmt::Result {
        match *self {
            Problem::Line { number, fault } => write!(f, "line {number}: {fault}"),
            Problem::NoImbalance => write!(f, "no imbalance line"),
            Problem::NoIndex => write!(f, "no index line"),
            Problem::NoInternalPrice => write!(f, "no internal price line"),
        }
    }
}
