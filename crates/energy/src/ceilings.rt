// A layer over any book that keeps ceilings of its own.
ghost use Rattle.std.specs.Prelude.{◌≡◌, replicate, is_ok, if◌then◌else◌, slice_set};
ghost use Rattle.energy.specs.Layers.{under_ceilings, over_own, ceiling_verdict};
ghost use Rattle.energy.specs.Lawfulness.{ceilings_lawful};

use crate::book::Book;
use crate::limits::MOST_LINES;
use charging::ENERGY_LIMIT_KWH;
use refusal::{Concern, Layer, Reason, Refusal};

// It and the layer of seals pass on the same calls; a layer over a trait of both would need more clauses than these are lines.
#[derive(Drop)]
pub struct Ceilings<B> {
    below: B,
    own: [u32; MOST_LINES],
}

impl<B: Book> Ceilings<B> {
    // A layer whose every ceiling is the most that a cell may hold.
    pub fn new(below: B) -> Ceilings<B>
        ensures below { result.below ≡ below }
        ensures own { result.own ≡ replicate 128 500000 }
    {
        Ceilings {
            below,
            own: [ENERGY_LIMIT_KWH; MOST_LINES],
        }
    }

    // The book below, without the layer.
    pub fn into_below(self) -> B
        ensures { result ≡ self.below }
    {
        let Ceilings { below, own: _ } = self;
        below
    }

    // Sets a line's ceiling, or refuses and leaves the layer as it was.
    pub fn set_ceiling(&mut self, line: usize, kwh: u32) -> Result<(), Refusal>
        ensures answer { result ≡ ceiling_verdict line kwh }
        ensures own { self.new.own ≡ (if is_ok (ceiling_verdict line kwh) then slice_set self.old.own line kwh else self.old.own) }
        ensures below { self.new.below ≡ self.old.below }
    {
        let whom = Concern::of_member(line / 2);
        if kwh > ENERGY_LIMIT_KWH {
            return Err(whom.refused(Reason::FigureOutOfRange, Layer::Ceiling));
        }
        if line >= MOST_LINES {
            return Err(whom.refused(Reason::NoSuchLine, Layer::Ceiling));
        }
        self.own[line] = kwh;
        Ok(())
    }

    // Whether only this layer's own ceiling is in the way of a posting.
    fn over_own(&self, line: usize, period: usize, kwh: u32) -> bool
        ensures { result ≡ over_own self.now.own (B.Book.meaning self.now.below) line period kwh }
    {
        match (self.below.sealed(line, period), self.below.ceiling(line)) {
            (Some(false), Some(most)) => kwh <= most && kwh > self.own[line],
            _ => false,
        }
    }
}

impl<B: Book> Book for Ceilings<B> {
    ghost meaning = { λ layer. under_ceilings layer.own (B.Book.meaning layer.below) };

    ghost lawful = { λ layer. ceilings_lawful layer.own (B.Book.meaning layer.below) (B.Book.lawful layer.below) };

    fn lines(&self) -> usize {
        self.below.lines()
    }

    fn periods(&self) -> usize {
        self.below.periods()
    }

    fn read(&self, line: usize, period: usize) -> Option<u32> {
        self.below.read(line, period)
    }

    fn ceiling(&self, line: usize) -> Option<u32> {
        let most = self.below.ceiling(line)?;
        Some(most.min(self.own[line]))
    }

    fn sealed(&self, line: usize, period: usize) -> Option<bool> {
        self.below.sealed(line, period)
    }

    fn spare(&self) -> usize {
        self.below.spare()
    }

    #[tactic(auto, using(crate::proofs::Layering::ceilings_verdict, crate::proofs::Layering::ceilings_outcome))]
    fn post(&mut self, line: usize, period: usize, kwh: u32) -> Result<(), Refusal> {
        if self.over_own(line, period, kwh) {
            return Err(Refusal::at_cell(Reason::AboveCeiling, Layer::Ceiling, line, period));
        }
        // What the book below refuses is passed up whole.
        self.below.post(line, period, kwh)?;
        Ok(())
    }
}
