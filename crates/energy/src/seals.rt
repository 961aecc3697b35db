// A layer over any book that seals whole days.
ghost use Rattle.std.specs.Prelude.{◌≡◌, ℕ, ◌/◌, ◌^◌, ◌<◌, is_ok, if◌then◌else◌, bit_or, count_ones};
ghost use Rattle.energy.specs.Limits.{most_periods, periods_per_day};
ghost use Rattle.energy.specs.Layers.{under_seals, sealed_own, seal_verdict, day_in, with_day};
ghost use Rattle.energy.specs.Lawfulness.{seals_lawful};

use crate::book::Book;
use crate::limits::{MOST_DAYS, PERIODS_PER_DAY};
use refusal::{Layer, Reason, Refusal};

#[derive(Drop)]
pub struct Seals<B> {
    below: B,
    // bit i: day i is sealed
    days: u32,
}

impl<B: Book> Seals<B> {
    // A layer that seals no day.
    pub fn new(below: B) -> Seals<B>
        ensures below { result.below ≡ below }
        ensures days { result.days ≡ 0 }
    {
        Seals { below, days: 0 }
    }

    // The book below, without the layer.
    pub fn into_below(self) -> B
        ensures { result ≡ self.below }
    {
        let Seals { below, days: _ } = self;
        below
    }

    // Seals a day, or refuses and leaves the layer as it was.
    pub fn seal(&mut self, day: u32) -> Result<(), Refusal>
        ensures answer { result ≡ seal_verdict day }
        ensures days { self.new.days ≡ (if is_ok (seal_verdict day) then bit_or self.old.days (2 ^ day) else self.old.days) }
        ensures below { self.new.below ≡ self.old.below }
        ensures sealed { (d : ℕ) → day_in self.new.days d ≡ (if is_ok (seal_verdict day) then with_day self.old.days day d else day_in self.old.days d) }
    {
        if day as usize >= MOST_DAYS {
            return Err(Refusal::naming_nobody(Reason::NoSuchPeriod, Layer::Seal));
        }
        self.days |= 1 << day;
        Ok(())
    }

    // How many days this layer seals.
    pub fn sealed_days(&self) -> u32
        ensures { result ≡ count_ones self.now.days }
    {
        self.days.count_ones()
    }

    // Whether this layer seals the day of a period.
    fn covers(&self, period: usize) -> bool
        requires { period < most_periods }
        ensures { result ≡ day_in self.now.days (period / periods_per_day) }
    {
        (self.days >> (period / PERIODS_PER_DAY)) % 2 == 1
    }

    // Whether only this layer's own seal is in the way of a posting.
    fn sealed_own(&self, line: usize, period: usize) -> bool
        ensures { result ≡ sealed_own self.now.days (B.Book.meaning self.now.below) line period }
    {
        self.below.sealed(line, period) == Some(false) && self.covers(period)
    }
}

impl<B: Book> Book for Seals<B> {
    ghost meaning = { λ layer. under_seals layer.days (B.Book.meaning layer.below) };

    ghost lawful = { λ layer. seals_lawful layer.days (B.Book.meaning layer.below) (B.Book.lawful layer.below) };

    fn lines(&self) -> usize {
        self.below.lines()
    }

    fn periods(&self) -> usize {
        self.below.periods()
    }

    fn read(&self, line: usize, period: usize) -> Option<u32> {
        self.below.read(line, period)
    }

    fn ceiling(&self, line: usize) -> Option<u32> {
        self.below.ceiling(line)
    }

    fn sealed(&self, line: usize, period: usize) -> Option<bool> {
        let below = self.below.sealed(line, period)?;
        Some(below || self.covers(period))
    }

    fn spare(&self) -> usize {
        self.below.spare()
    }

    #[tactic(auto, using(crate::proofs::Layering::seals_verdict))]
    fn post(&mut self, line: usize, period: usize, kwh: u32) -> Result<(), Refusal> {
        if self.sealed_own(line, period) {
            return Err(Refusal::at_cell(Reason::Sealed, Layer::Seal, line, period));
        }
        // What the book below refuses is passed up whole.
        self.below.post(line, period, kwh)?;
        Ok(())
    }
}
