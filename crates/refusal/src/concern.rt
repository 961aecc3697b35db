// Whom a call concerns.
ghost use Rattle.std.specs.Prelude.{◌≡◌};
ghost use Rattle.refusal.specs.Numbers.{concern, of_member, of_period};

// The largest group has so many members, so this is no member's number.
pub const NO_MEMBER: u8 = 64;

// No run has so many periods, so this is no period's number.
pub const NO_PERIOD: u16 = 65_535;

// The member and the period that a call was given; none where it was given none, or a number that no group or run has.
#[derive(Clone, Copy, PartialEq, Eq, Debug)]
pub struct Concern {
    pub member: Option<u8>,
    pub period: Option<u16>,
}

impl Concern {
    // A call that was given neither member nor period.
    pub const NOBODY: Concern = Concern {
        member: None,
        period: None,
    };

    // A call that was given a member and a period, as numbers: so calls are given them.
    pub fn new(member: usize, period: usize) -> Concern
        ensures { result ≡ concern member period }
    {
        Concern {
            member: Concern::of_member(member).member,
            period: Concern::of_period(period).period,
        }
    }

    // A call that was given a member alone.
    pub fn of_member(member: usize) -> Concern
        ensures { result ≡ of_member member }
    {
        Concern {
            member: u8::try_from(member).ok().filter(|m| *m < NO_MEMBER),
            period: None,
        }
    }

    // A call that was given a period alone.
    pub fn of_period(period: usize) -> Concern
        ensures { result ≡ of_period period }
    {
        Concern {
            member: None,
            period: u16::try_from(period).ok().filter(|p| *p < NO_PERIOD),
        }
    }
}
