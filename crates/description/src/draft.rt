// What the lines of a description have entered so far.
ghost use Rattle.std.specs.Prelude.{◌≡◌};
ghost use Rattle.description.specs.Entries.{left};
ghost use Rattle.description.specs.Figures.{given_at, direction_after, draft_after, draft_after_line, at_line, activations_of, figures_from, quarter_from};

use crate::entry::{DirectionEntry, Entry, read_line};
use crate::group::{Group, GroupDraft};
use crate::once;
use crate::problem::{Fault, Problem};
use arrayvec::ArrayVec;
use pricing::{Activation, Activations, SystemFigures};

// The kinds of reserve, and so the most activations of one direction.
const RESERVES: usize = 3;

// A quarter of an hour: the system's figures, and the group where one is listed.
#[derive(Clone, Copy)]
pub struct Quarter {
    pub figures: SystemFigures,
    pub group: Option<Group>,
}

#[derive(Default, Drop)]
pub struct Draft {
    imbalance_kwh: Option<i32>,
    index: Option<i32>,
    downward: Direction,
    upward: Direction,
    group: GroupDraft,
}

// One direction, and its activations in the order in which they were given.
#[derive(Default, Drop)]
struct Direction {
    bid: Option<i32>,
    reserves: ArrayVec<Activation, RESERVES>,
}

fn given(reserves: &[Activation], number: usize) -> Activation
    ensures { result ≡ given_at reserves.now number }
{
    reserves.get(number).copied().unwrap_or_default()
}

impl Direction {
    fn enter(&mut self, entry: DirectionEntry) -> Result<(), Fault>
        ensures { left result self.new ≡ direction_after self.old entry }
    {
        match entry {
            DirectionEntry::Bid(price) => self.bid = once::given(self.bid, price)?,
            DirectionEntry::Activated(activation) => self
                .reserves
                .try_push(activation)
                .map_err(|_| Fault::Repeated)?,
        }
        Ok(())
    }

    fn activations(&self) -> Activations
        ensures { result ≡ activations_of self.now.reserves.items }
    {
        let reserves = self.reserves.as_slice();
        Activations {
            automatic: given(reserves, 0),
            manual: given(reserves, 1),
            replacement: given(reserves, 2),
        }
    }
}

impl Draft {
    fn enter(&mut self, entry: Entry) -> Result<(), Fault>
        ensures { left result self.new ≡ draft_after self.old entry }
    {
        match entry {
            Entry::ImbalanceKwh(kwh) => self.imbalance_kwh = once::given(self.imbalance_kwh, kwh)?,
            Entry::IndexPrice(price) => self.index = once::given(self.index, price)?,
            Entry::Downward(entry) => self.downward.enter(entry)?,
            Entry::Upward(entry) => self.upward.enter(entry)?,
            Entry::OfGroup(entry) => self.group.enter(entry)?,
        }
        Ok(())
    }

    fn enter_words(&mut self, line: &[u8]) -> Result<(), Fault>
        ensures { left result self.new ≡ draft_after_line self.old line.now }
    {
        match read_line(line)? {
            Some(entry) => self.enter(entry),
            None => Ok(()),
        }
    }

    // In place, since a draft has room for the largest group: to hand it on line by line would copy that room each time.
    pub(crate) fn enter_line(&mut self, number: usize, line: &[u8]) -> Result<(), Problem>
        ensures { left result self.new ≡ at_line number (draft_after_line self.old line.now) }
    {
        self.enter_words(line)
            .map_err(|fault| Problem::Line { number, fault })
    }

    fn figures(&self) -> Result<SystemFigures, Problem>
        ensures { result ≡ figures_from self.now }
    {
        let imbalance_kwh = self.imbalance_kwh.ok_or(Problem::NoImbalance)?;
        let index = self.index.ok_or(Problem::NoIndex)?;
        Ok(SystemFigures {
            imbalance_kwh,
            downward: self.downward.activations(),
            upward: self.upward.activations(),
            downward_bid: self.downward.bid,
            upward_bid: self.upward.bid,
            index,
        })
    }

    pub(crate) fn quarter(self) -> Result<Quarter, Problem>
        ensures { result ≡ quarter_from self }
    {
        let figures = self.figures()?;
        let group = self.group.group()?;
        Ok(Quarter { figures, group })
    }
}
