// A record read from the front of some bytes.
ghost use Rattle.std.specs.Prelude.{◌≡◌};
ghost use Rattle.posting.specs.Laws.{Reads};
ghost use Rattle.posting.specs.Reading.{fields_in, posting_in, record_in};

use crate::fields::{energy_of, figures_of, opening_of, period_of, price_of};
use crate::kind::Kind;
use crate::posting::Posting;
use refusal::{Layer, Reason, Refusal};

// A posting, and how many bytes its record takes.
#[derive(Clone, Copy, PartialEq, Eq, Debug)]
pub struct Record {
    pub posting: Posting,
    pub size: usize,
}

fn posting_of_kind(kind: Kind, fields: &[u8]) -> Option<Posting>
    ensures { result ≡ fields_in kind fields.now }
{
    match kind {
        Kind::Opening => opening_of(fields).map(Posting::Opening),
        Kind::Schedule => energy_of(fields).map(Posting::Schedule),
        Kind::Reading => energy_of(fields).map(Posting::Reading),
        Kind::Price => price_of(fields),
        Kind::Figures => figures_of(fields),
        Kind::Settle => period_of(fields).map(|period| Posting::Settle { period }),
        Kind::Reopen => period_of(fields).map(|period| Posting::Reopen { period }),
    }
}

// The posting that a body says, if it says one.
fn posting_of(body: &[u8]) -> Option<Posting>
    ensures { result ≡ posting_in body.now }
{
    let [kind, fields @ ..] = body else {
        return None;
    };
    posting_of_kind(Kind::try_from(*kind).ok()?, fields)
}

// The record at the front of some bytes. It is refused with 18 where the bytes end before its length or its body does, else with
// 19 where the body is none that a posting has; layer file, and no place, which only the caller knows.
pub fn read_record(bytes: &[u8]) -> Result<Record, Refusal>
    ensures value { result ≡ record_in bytes.now }
    ensures lawful { Reads bytes.now result }
{
    let [high, low, rest @ ..] = bytes else {
        return Err(Refusal::naming_nobody(Reason::CutShort, Layer::File));
    };
    let length = usize::from(u16::from_be_bytes([*high, *low]));
    let Some(body) = rest.get(..length) else {
        return Err(Refusal::naming_nobody(Reason::CutShort, Layer::File));
    };
    let Some(posting) = posting_of(body) else {
        return Err(Refusal::naming_nobody(Reason::BadRecord, Layer::File));
    };
    Ok(Record {
        posting,
        size: 2 + length,
    })
}
