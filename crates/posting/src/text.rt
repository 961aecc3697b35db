// Postings as text, for a person to read.
ghost use Rattle.std.specs.Prelude.{Some};
ghost use Rattle.posting.specs.Text.{opening_text, energy_text, activation_text, activations_text, bid_text, figures_text, posting_text, placed_text, line_text, listing_text};

use crate::file::{Placed, Postings};
use crate::posting::{MemberEnergy, Opening, Posting};
use pricing::{Activation, Activations, SystemFigures};
use refusal::Refusal;
use std::fmt;

impl fmt::Display for Opening {
    ghost output = { λ o. Some (opening_text o) };

    fn fmt<W: fmt::Write>(&self, f: &mut fmt::Formatter<W>) -> fmt::Result {
        let Opening {
            members,
            days,
            consumers,
            internal_price,
        } = *self;
        write!(
            f,
            "members {members} days {days} consumers {consumers} internal price {internal_price}"
        )
    }
}

impl fmt::Display for MemberEnergy {
    ghost output = { λ e. Some (energy_text e) };

    fn fmt<W: fmt::Write>(&self, f: &mut fmt::Formatter<W>) -> fmt::Result {
        let MemberEnergy {
            member,
            period,
            kwh,
        } = *self;
        write!(f, "member {member} period {period} kwh {kwh}")
    }
}

#[derive(Clone, Copy)]
struct Activated(Activation);

impl fmt::Display for Activated {
    ghost output = { λ a. Some (activation_text a.0) };

    fn fmt<W: fmt::Write>(&self, f: &mut fmt::Formatter<W>) -> fmt::Result {
        let Activation { kwh, price } = self.0;
        write!(f, "{kwh} at {price}")
    }
}

#[derive(Clone, Copy)]
struct Direction(Activations);

impl fmt::Display for Direction {
    ghost output = { λ d. Some (activations_text d.0) };

    fn fmt<W: fmt::Write>(&self, f: &mut fmt::Formatter<W>) -> fmt::Result {
        let automatic = Activated(self.0.automatic);
        let manual = Activated(self.0.manual);
        let replacement = Activated(self.0.replacement);
        write!(f, "{automatic} and {manual} and {replacement}")
    }
}

#[derive(Clone, Copy)]
struct Bid(Option<i32>);

impl fmt::Display for Bid {
    ghost output = { λ b. Some (bid_text b.0) };

    fn fmt<W: fmt::Write>(&self, f: &mut fmt::Formatter<W>) -> fmt::Result {
        match self.0 {
            Some(price) => write!(f, "{price}"),
            None => write!(f, "none"),
        }
    }
}

#[derive(Clone, Copy)]
struct Published(SystemFigures);

impl fmt::Display for Published {
    ghost output = { λ p. Some (figures_text p.0) };

    fn fmt<W: fmt::Write>(&self, f: &mut fmt::Formatter<W>) -> fmt::Result {
        let imbalance_kwh = self.0.imbalance_kwh;
        let downward = Direction(self.0.downward);
        let upward = Direction(self.0.upward);
        let downward_bid = Bid(self.0.downward_bid);
        let upward_bid = Bid(self.0.upward_bid);
        let index = self.0.index;
        write!(
            f,
            "imbalance {imbalance_kwh} downward {downward} upward {upward} downward bid {downward_bid} upward bid {upward_bid} index {index}"
        )
    }
}

impl fmt::Display for Posting {
    ghost output = { λ p. Some (posting_text p) };

    fn fmt<W: fmt::Write>(&self, f: &mut fmt::Formatter<W>) -> fmt::Result {
        match *self {
            Posting::Opening(opening) => write!(f, "opening {opening}"),
            Posting::Schedule(energy) => write!(f, "schedule {energy}"),
            Posting::Reading(energy) => write!(f, "reading {energy}"),
            Posting::Price { period, price } => write!(f, "price period {period} price {price}"),
            Posting::Figures { period, figures } => {
                let figures = Published(figures);
                write!(f, "figures period {period} {figures}")
            }
            Posting::Settle { period } => write!(f, "settle period {period}"),
            Posting::Reopen { period } => write!(f, "reopen period {period}"),
        }
    }
}

impl fmt::Display for Placed {
    ghost output = { λ p. Some (placed_text p) };

    fn fmt<W: fmt::Write>(&self, f: &mut fmt::Formatter<W>) -> fmt::Result {
        let place = self.place;
        let posting = self.posting;
        write!(f, "at {place} {posting}")
    }
}

// One step of the walk over a file.
#[derive(Clone, Copy)]
struct Line(Result<Placed, Refusal>);

impl fmt::Display for Line {
    ghost output = { λ l. Some (line_text l.0) };

    fn fmt<W: fmt::Write>(&self, f: &mut fmt::Formatter<W>) -> fmt::Result {
        match self.0 {
            Ok(placed) => write!(f, "{placed}\n"),
            Err(refusal) => write!(f, "{refusal}\n"),
        }
    }
}

// A file of postings as text: a line for each posting, and one for the refusal that ends them, if one does.
#[derive(Clone, Copy)]
pub struct Listing<'a>(pub &'a [u8]);

impl fmt::Display for Listing<'_> {
    ghost output = { λ l. Some (listing_text l.0.now) };

    fn fmt<W: fmt::Write>(&self, f: &mut fmt::Formatter<W>) -> fmt::Result {
        for step in Postings::of_file(self.0) {
            let line = Line(step);
            write!(f, "{line}")?;
        }
        Ok(())
    }
}
