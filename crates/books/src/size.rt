// The size of a book with no layer over it, and what follows from that alone.
ghost use Rattle.std.specs.Prelude.{◌≡◌, ◌+◌, ◌*◌, ◌<◌};
ghost use Rattle.energy.specs.Limits.{WithinLimits, within_limits};
ghost use Rattle.books.specs.Plain.{in_size, plain_check, plain_ceiling, plain_seal};

use charging::ENERGY_LIMIT_KWH;
use energy::{MOST_LINES, MOST_PERIODS};
use refusal::{Layer, Reason, Refusal};

#[derive(Clone, Copy)]
pub(crate) struct Size {
    pub(crate) lines: usize,
    pub(crate) periods: usize,
}

impl Size {
    pub(crate) const ONE_CELL: Size = Size {
        lines: 1,
        periods: 1,
    };

    pub(crate) fn is_within_limits(self) -> bool
        ensures { result ≡ within_limits self.lines self.periods }
    {
        1 <= self.lines
            && self.lines <= MOST_LINES
            && 1 <= self.periods
            && self.periods <= MOST_PERIODS
    }

    pub(crate) fn has(self, line: usize, period: usize) -> bool
        ensures { result ≡ in_size self.lines self.periods line period }
    {
        line < self.lines && period < self.periods
    }

    // The answer to a posting but for the question of room.
    pub(crate) fn check_posting(self, line: usize, period: usize, kwh: u32) -> Result<(), Refusal>
        ensures { result ≡ plain_check self.lines self.periods line period kwh }
    {
        if period >= self.periods {
            return Err(Refusal::at_cell(Reason::NoSuchPeriod, Layer::Book, line, period));
        }
        if line >= self.lines {
            return Err(Refusal::at_cell(Reason::NoSuchLine, Layer::Book, line, period));
        }
        if kwh > ENERGY_LIMIT_KWH {
            return Err(Refusal::at_cell(Reason::AboveCeiling, Layer::Book, line, period));
        }
        Ok(())
    }

    pub(crate) fn ceiling(self, line: usize) -> Option<u32>
        ensures { result ≡ plain_ceiling self.lines line }
    {
        (line < self.lines).then_some(ENERGY_LIMIT_KWH)
    }

    pub(crate) fn sealed(self, line: usize, period: usize) -> Option<bool>
        ensures { result ≡ plain_seal self.lines self.periods line period }
    {
        self.has(line, period).then_some(false)
    }

    // The place of a cell where line stands after line.
    pub(crate) fn place(self, line: usize, period: usize) -> usize
        requires limits { WithinLimits self.lines self.periods }
        requires in_lines { line < self.lines }
        requires in_periods { period < self.periods }
        ensures is { result ≡ line * self.periods + period }
        ensures within { result < self.lines * self.periods }
    {
        line * self.periods + period
    }
}
