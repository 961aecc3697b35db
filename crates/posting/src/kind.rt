// The kinds of records, by the first byte of their bodies.
ghost use Rattle.std.specs.Prelude.{◌≡◌};
ghost use Rattle.std.specs.Option.{ok_or};
ghost use Rattle.refusal.specs.declared.reason.Reason.TheVariants.{BadRecord};
ghost use Rattle.posting.specs.Kinds.{kind_told, kind_of};

use crate::posting::Posting;
use refusal::Reason;

#[derive(Clone, Copy, PartialEq, Eq, Debug)]
pub(crate) enum Kind {
    Opening = 0,
    Schedule = 1,
    Reading = 2,
    Price = 3,
    Figures = 4,
    Settle = 5,
    Reopen = 6,
}

// The kind that a byte tells; 19 where it tells none. The bytes stand again, since a match on numbers takes literals.
impl TryFrom<u8> for Kind {
    type Error = Reason;

    ghost try_from_gives = { λ byte told. told ≡ ok_or (kind_told byte) BadRecord };

    fn try_from(byte: u8) -> Result<Kind, Reason> {
        match byte {
            0 => Ok(Kind::Opening),
            1 => Ok(Kind::Schedule),
            2 => Ok(Kind::Reading),
            3 => Ok(Kind::Price),
            4 => Ok(Kind::Figures),
            5 => Ok(Kind::Settle),
            6 => Ok(Kind::Reopen),
            _ => Err(Reason::BadRecord),
        }
    }
}

impl Posting {
    pub(crate) fn kind(&self) -> Kind
        ensures { result ≡ kind_of self.now }
    {
        match self {
            Posting::Opening(_) => Kind::Opening,
            Posting::Schedule(_) => Kind::Schedule,
            Posting::Reading(_) => Kind::Reading,
            Posting::Price { .. } => Kind::Price,
            Posting::Figures { .. } => Kind::Figures,
            Posting::Settle { .. } => Kind::Settle,
            Posting::Reopen { .. } => Kind::Reopen,
        }
    }
}
