// The body of a record on the way to a buffer.
ghost use Rattle.std.specs.Prelude.{◌≡◌, ◌+◌, ◌^◌, ◌<◌, ◌≤◌, List, ℕ, [], ◌∷◌, ◌++◌, length};
ghost use Rattle.posting.specs.Bytes.{two, four, eight, signed_four};
ghost use Rattle.posting.specs.Encoding.{longest_body, opening_fields, energy_fields, activation_fields, activations_fields, flag_of, bids_fields, figures_fields, body_of};
ghost use Rattle.posting.specs.Laws.{FitsFour, ProperOpening, ProperEnergy, ProperActivation, ProperActivations, ProperBid, ProperFigures, Proper};

use crate::posting::{MemberEnergy, Opening, Posting};
use arrayvec::ArrayVec;
use pricing::{Activation, Activations, SystemFigures};

// The longest body: that of system figures.
const LONGEST_BODY: usize = 68;

// The bytes that are written.
pub(crate) type Body = ArrayVec<u8, LONGEST_BODY>;

fn put_bytes(bytes: &[u8], body: &mut Body)
    requires { length body.old.items + length bytes.now ≤ longest_body }
    ensures adds { body.new.items ≡ body.old.items ++ bytes.now }
    ensures size { length body.new.items ≡ length body.old.items + length bytes.now }
{
    body.try_extend_from_slice(bytes).unwrap();
}

// What stands in a body: a number, or several fields one after the other.
pub(crate) trait Field {
    ghost bytes: { Self → List ℕ };

    // that it fits its bytes, as every value of the program's types does
    ghost Fits: { Self → Type 0 };

    // Puts the bytes behind what is written.
    fn put(&self, body: &mut Body)
        requires { length body.old.items + length (bytes self.now) ≤ longest_body }
        ensures adds { body.new.items ≡ body.old.items ++ bytes self.now }
        ensures size { length body.new.items ≡ length body.old.items + length (bytes self.now) }
        ensures fits { Fits self.now };
}

// Each width has an impl of its own: a bound that has a number's bytes has not its range.
impl Field for u8 {
    ghost bytes = { λ n. n ∷ [] };

    ghost Fits = { λ n. n < 2 ^ 8 };

    fn put(&self, body: &mut Body) {
        put_bytes(&[*self], body);
    }
}

impl Field for u16 {
    ghost bytes = { two };

    ghost Fits = { λ n. n < 2 ^ 16 };

    fn put(&self, body: &mut Body) {
        put_bytes(&self.to_be_bytes(), body);
    }
}

impl Field for u32 {
    ghost bytes = { four };

    ghost Fits = { λ n. n < 2 ^ 32 };

    fn put(&self, body: &mut Body) {
        put_bytes(&self.to_be_bytes(), body);
    }
}

impl Field for u64 {
    ghost bytes = { eight };

    ghost Fits = { λ n. n < 2 ^ 64 };

    fn put(&self, body: &mut Body) {
        put_bytes(&self.to_be_bytes(), body);
    }
}

impl Field for i32 {
    ghost bytes = { signed_four };

    ghost Fits = { FitsFour };

    fn put(&self, body: &mut Body) {
        put_bytes(&self.to_be_bytes(), body);
    }
}

impl Field for Opening {
    ghost bytes = { opening_fields };

    ghost Fits = { λ o. ProperOpening o };

    fn put(&self, body: &mut Body) {
        self.members.put(body);
        self.days.put(body);
        self.consumers.put(body);
        self.internal_price.put(body);
    }
}

impl Field for MemberEnergy {
    ghost bytes = { energy_fields };

    ghost Fits = { λ e. ProperEnergy e };

    fn put(&self, body: &mut Body) {
        self.member.put(body);
        self.period.put(body);
        self.kwh.put(body);
    }
}

impl Field for Activation {
    ghost bytes = { activation_fields };

    ghost Fits = { λ a. ProperActivation a };

    fn put(&self, body: &mut Body) {
        self.kwh.put(body);
        self.price.put(body);
    }
}

impl Field for Activations {
    ghost bytes = { activations_fields };

    ghost Fits = { λ a. ProperActivations a };

    fn put(&self, body: &mut Body) {
        self.automatic.put(body);
        self.manual.put(body);
        self.replacement.put(body);
    }
}

// A bid that is there counts this much in the flags: numbers, since the format of records has them.
const DOWNWARD_FLAG: u8 = 1;

const UPWARD_FLAG: u8 = 2;

fn flag_of(weight: u8, bid: Option<i32>) -> u8
    ensures flag { result ≡ flag_of weight bid }
    ensures proper { ProperBid bid }
{
    match bid {
        Some(_) => weight,
        None => 0,
    }
}

#[derive(Clone, Copy)]
struct Bids {
    downward: Option<i32>,
    upward: Option<i32>,
}

impl Field for Bids {
    ghost bytes = { λ b. bids_fields b.downward b.upward };

    ghost Fits = { λ b. ProperBid b.downward × ProperBid b.upward };

    // The flags, then the bids.
    fn put(&self, body: &mut Body) {
        let flags = flag_of(DOWNWARD_FLAG, self.downward) + flag_of(UPWARD_FLAG, self.upward);
        flags.put(body);
        self.downward.unwrap_or(0).put(body);
        self.upward.unwrap_or(0).put(body);
    }
}

impl Field for SystemFigures {
    ghost bytes = { figures_fields };

    ghost Fits = { λ f. ProperFigures f };

    fn put(&self, body: &mut Body) {
        self.imbalance_kwh.put(body);
        self.downward.put(body);
        self.upward.put(body);
        let bids = Bids {
            downward: self.downward_bid,
            upward: self.upward_bid,
        };
        bids.put(body);
        self.index.put(body);
    }
}

impl Field for Posting {
    ghost bytes = { body_of };

    ghost Fits = { Proper };

    // The kind, then the fields.
    fn put(&self, body: &mut Body) {
        let kind = self.kind() as u8;
        kind.put(body);
        match self {
            Posting::Opening(opening) => opening.put(body),
            Posting::Schedule(energy) => energy.put(body),
            Posting::Reading(energy) => energy.put(body),
            Posting::Price { period, price } => {
                period.put(body);
                price.put(body);
            }
            Posting::Figures { period, figures } => {
                period.put(body);
                figures.put(body);
            }
            Posting::Settle { period } => period.put(body),
            Posting::Reopen { period } => period.put(body),
        }
    }
}
