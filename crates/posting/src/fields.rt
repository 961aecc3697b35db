// The fields of a record's body, read from its bytes; nothing where there are not as many bytes as the kind has.
ghost use Rattle.std.specs.Prelude.{◌≡◌, ◌<◌, length, MatchOption};
ghost use Rattle.posting.specs.Reading.{opening_in, energy_in, price_in, period_in, Splits, activation_at, activations_at, bid_in, bids_in, figures_in};

use crate::posting::{MemberEnergy, Opening, Posting};
use pricing::{Activation, Activations, SystemFigures};

// Members, days, consumers and internal price.
pub(crate) fn opening_of(fields: &[u8]) -> Option<Opening>
    ensures { result ≡ opening_in fields.now }
{
    let [
        members,
        days,
        c7,
        c6,
        c5,
        c4,
        c3,
        c2,
        c1,
        c0,
        v3,
        v2,
        v1,
        v0,
    ] = fields
    else {
        return None;
    };
    Some(Opening {
        members: *members,
        days: *days,
        consumers: u64::from_be_bytes([*c7, *c6, *c5, *c4, *c3, *c2, *c1, *c0]),
        internal_price: i32::from_be_bytes([*v3, *v2, *v1, *v0]),
    })
}

// Member, period and kWh, of a schedule or a reading.
pub(crate) fn energy_of(fields: &[u8]) -> Option<MemberEnergy>
    ensures { result ≡ energy_in fields.now }
{
    let [member, p1, p0, e3, e2, e1, e0] = fields else {
        return None;
    };
    Some(MemberEnergy {
        member: *member,
        period: u16::from_be_bytes([*p1, *p0]),
        kwh: u32::from_be_bytes([*e3, *e2, *e1, *e0]),
    })
}

// Period and price.
pub(crate) fn price_of(fields: &[u8]) -> Option<Posting>
    ensures { result ≡ price_in fields.now }
{
    let [p1, p0, v3, v2, v1, v0] = fields else {
        return None;
    };
    Some(Posting::Price {
        period: u16::from_be_bytes([*p1, *p0]),
        price: i32::from_be_bytes([*v3, *v2, *v1, *v0]),
    })
}

// The period to settle or to reopen.
pub(crate) fn period_of(fields: &[u8]) -> Option<u16>
    ensures { result ≡ period_in fields.now }
{
    let [p1, p0] = fields else {
        return None;
    };
    Some(u16::from_be_bytes([*p1, *p0]))
}

// The activation at the front of some bytes, and what is behind it.
fn split_activation(bytes: &[u8]) -> Option<(Activation, &[u8])>
    ensures { MatchOption result (length bytes.now < 8) (λ split. Splits bytes.now 8 (activation_at bytes.now 0) split.0 split.1.now) }
{
    let [e3, e2, e1, e0, v3, v2, v1, v0, rest @ ..] = bytes else {
        return None;
    };
    let activation = Activation {
        kwh: u32::from_be_bytes([*e3, *e2, *e1, *e0]),
        price: i32::from_be_bytes([*v3, *v2, *v1, *v0]),
    };
    Some((activation, rest))
}

// The activations of one direction at the front of some bytes, and what is behind them.
fn split_activations(bytes: &[u8]) -> Option<(Activations, &[u8])>
    ensures { MatchOption result (length bytes.now < 24) (λ split. Splits bytes.now 24 (activations_at bytes.now 0) split.0 split.1.now) }
{
    let (automatic, rest) = split_activation(bytes)?;
    let (manual, rest) = split_activation(rest)?;
    let (replacement, rest) = split_activation(rest)?;
    let activations = Activations {
        automatic,
        manual,
        replacement,
    };
    Some((activations, rest))
}

// The bid that stands in a record, absent where it is not flagged; nothing where another number than 0 stands for an absent
// one.
fn bid_of(flagged: bool, price: i32) -> Option<Option<i32>>
    ensures { result ≡ bid_in flagged price }
{
    match (flagged, price) {
        (true, _) => Some(Some(price)),
        (false, 0) => Some(None),
        (false, _) => None,
    }
}

// The largest flags: both bids are there. A number, since the format of records has it.
const BOTH_FLAGS: u8 = 3;

// The bids, from their flags and what stands for each; nothing where flags and bids do not agree.
fn bids_of(flags: u8, downward: i32, upward: i32) -> Option<(Option<i32>, Option<i32>)>
    ensures { result ≡ bids_in flags downward upward }
{
    if flags > BOTH_FLAGS {
        return None;
    }
    let downward_bid = bid_of(flags % 2 == 1, downward)?;
    let upward_bid = bid_of(flags / 2 == 1, upward)?;
    Some((downward_bid, upward_bid))
}

// The period and the published figures; nothing also where flags and bids do not agree.
pub(crate) fn figures_of(fields: &[u8]) -> Option<Posting>
    ensures { result ≡ figures_in fields.now }
{
    let [p1, p0, k3, k2, k1, k0, rest @ ..] = fields else {
        return None;
    };
    let (downward, rest) = split_activations(rest)?;
    let (upward, rest) = split_activations(rest)?;
    let [flags, d3, d2, d1, d0, u3, u2, u1, u0, x3, x2, x1, x0] = rest else {
        return None;
    };
    let downward_price = i32::from_be_bytes([*d3, *d2, *d1, *d0]);
    let upward_price = i32::from_be_bytes([*u3, *u2, *u1, *u0]);
    let (downward_bid, upward_bid) = bids_of(*flags, downward_price, upward_price)?;
    let figures = SystemFigures {
        imbalance_kwh: i32::from_be_bytes([*k3, *k2, *k1, *k0]),
        downward,
        upward,
        downward_bid,
        upward_bid,
        index: i32::from_be_bytes([*x3, *x2, *x1, *x0]),
    };
    let period = u16::from_be_bytes([*p1, *p0]);
    Some(Posting::Figures { period, figures })
}
