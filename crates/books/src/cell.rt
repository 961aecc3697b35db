// A cell as the key of a listed book.
ghost use Rattle.std.specs.Prelude.{◌≡◌, ◌<◌};
ghost use Rattle.energy.specs.Limits.{most_lines, most_periods};
ghost use Rattle.books.specs.Cells.{same_cell, cell_exact, cell_spread};

use energy::MOST_PERIODS;
use keyed::Key;

#[derive(Clone, Copy, PartialEq, Eq, Debug)]
pub struct Cell {
    pub line: u8,
    pub period: u16,
}

impl Cell {
    pub(crate) fn at(line: usize, period: usize) -> Cell
        requires in_lines { line < most_lines }
        requires in_periods { period < most_periods }
        ensures { result ≡ record { line = line; period = period } }
    {
        Cell {
            line: line as u8,
            period: period as u16,
        }
    }
}

impl Key for Cell {
    ghost same = { same_cell };

    ghost spread = { cell_spread };

    ghost exact = { cell_exact };

    fn is(&self, other: &Cell) -> bool {
        *self == *other
    }

    // Neighbouring cells spread to neighbouring numbers.
    fn spread(&self) -> usize {
        usize::from(self.line) * MOST_PERIODS + usize::from(self.period)
    }
}
