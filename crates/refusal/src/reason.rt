// The reasons for which a call is refused, each with its fixed number.
ghost use Rattle.std.specs.Prelude.{◌≡◌, Some, ◌==◌};
ghost use Rattle.refusal.specs.Numbers.{number_of};
ghost use Rattle.refusal.specs.Text.{reason_words};
ghost use Rattle.std.specs.Cmp.Rules.{comparing};
ghost use Rattle.std.proofs.Common.{rules};
ghost use Rattle.std.specs.Cmp as Keys;

use std::fmt;

#[derive(Clone, Copy, Debug)]
pub enum Reason {
    WrongLength = 1,
    LedgerOutOfRange = 2,
    BookTooSmall = 3,
    OutsideLimits = 4,
    NoSuchMember = 5,
    NoSuchPeriod = 6,
    PeriodSettled = 7,
    PeriodNotSettled = 8,
    FigureOutOfRange = 9,
    NoBase = 10,
    NoPrice = 11,
    EnergyMissing = 12,
    NoSuchLine = 13,
    Sealed = 14,
    AboveCeiling = 15,
    Full = 16,
    UnknownVersion = 17,
    CutShort = 18,
    BadRecord = 19,
    OutputTooShort = 20,
}

impl Reason {
    // The number by which a reason is reported.
    pub fn number(self) -> u8
        ensures { result ≡ number_of self }
    {
        self as u8
    }

    // The reason in words, by hand: what a derive prints is promised by no clause.
    pub fn words(self) -> &'static str
        ensures { result.now ≡ reason_words self }
    {
        match self {
            Reason::WrongLength => "memory of the wrong length",
            Reason::LedgerOutOfRange => "ledger out of range",
            Reason::BookTooSmall => "book too small",
            Reason::OutsideLimits => "opening or book figures outside the limits",
            Reason::NoSuchMember => "no such member",
            Reason::NoSuchPeriod => "no such period",
            Reason::PeriodSettled => "period settled",
            Reason::PeriodNotSettled => "period not settled",
            Reason::FigureOutOfRange => "a figure out of range",
            Reason::NoBase => "no base for a price",
            Reason::NoPrice => "no price yet",
            Reason::EnergyMissing => "an energy missing",
            Reason::NoSuchLine => "no such line",
            Reason::Sealed => "sealed",
            Reason::AboveCeiling => "above the ceiling",
            Reason::Full => "full",
            Reason::UnknownVersion => "version absent or unknown",
            Reason::CutShort => "cut short",
            Reason::BadRecord => "bad record",
            Reason::OutputTooShort => "output too short",
        }
    }
}

// Reasons are the same if their numbers are. By hand: a derived test compares variants, and says nothing of their numbers.
impl PartialEq for Reason {
    ghost eq = { λ one other. (number_of one == number_of other) };

    ghost laws = { Keys.partial_equiv_from_equiv (Prim.search (comparing, rules)) };

    fn eq(&self, other: &Reason) -> bool {
        self.number() == other.number()
    }
}

impl Eq for Reason {
    ghost laws = { Prim.search (comparing, rules) };
}

impl fmt::Display for Reason {
    ghost output = { λ r. Some (reason_words r) };

    fn fmt<W: fmt::Write>(&self, f: &mut fmt::Formatter<W>) -> fmt::Result {
        let words = self.words();
        write!(f, "{words}")
    }
}
