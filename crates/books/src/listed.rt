// The listed book: one entry for each filled cell, in memory that is handed over.
ghost use Rattle.std.specs.Prelude.{◌≡◌, true, false, length, is_ok};
ghost use Rattle.energy.specs.Meaning.{book_verdict, book_outcome};
ghost use Rattle.books.specs.Plain.{fits_if_any};
ghost use Rattle.books.specs.Listed.{fits_listed, listed_check, listed_made};

use crate::cell::Cell;
use crate::size::Size;
use charging::ENERGY_LIMIT_KWH;
use energy::Book;
use keyed::{Entry, KeyedList, fits};
use refusal::{Layer, Reason, Refusal};

// A listed book whose memory does not fit has no size, and stands for a book of one line and one period without room.
#[derive(Drop)]
pub struct ListedBook<'a> {
    cells: KeyedList<'a, Cell, u32>,
    size: Option<Size>,
    ghost fits: { fits_if_any (λ lines periods. fits_listed lines periods (length cells.memory.now)) size ≡ true },
}

impl<'a> ListedBook<'a> {
    ghost use Rattle.books.specs.Books.{listed_book};

    // Whether a listed book of this size can be made in memory of so many entries.
    pub fn check(size: usize, lines: usize, periods: usize) -> Result<(), Refusal>
        ensures { result ≡ listed_check lines periods size }
    {
        let book = Size { lines, periods };
        if !book.is_within_limits() {
            return Err(Refusal::naming_nobody(Reason::OutsideLimits, Layer::Book));
        }
        if !fits(size) {
            return Err(Refusal::naming_nobody(Reason::WrongLength, Layer::Book));
        }
        Ok(())
    }

    // An empty book. Nothing is written; where the check refuses, the book has one cell and no room.
    pub fn new(memory: &'a mut [Entry<Cell, u32>], lines: usize, periods: usize) -> ListedBook<'a>
        ensures made { listed_book result ≡ listed_made lines periods (length memory.old) }
        ensures memory { result.cells.memory.now ≡ memory.old }
        ensures lent { result.cells.memory.ghost_name ≡ memory.entry.ghost_name }
    {
        let size = match ListedBook::check(memory.len(), lines, periods) {
            Ok(()) => Some(Size { lines, periods }),
            Err(_) => None,
        };
        ListedBook {
            cells: KeyedList::new(memory),
            size,
        }
    }
}

impl ListedBook<'_> {
    ghost use Rattle.books.specs.Books.{listed_book};

    // How many lines and periods the book has.
    fn size(&self) -> Size
        ensures lines { result.lines ≡ (listed_book self.now).lines }
        ensures periods { result.periods ≡ (listed_book self.now).periods }
    {
        self.size.unwrap_or(Size::ONE_CELL)
    }
}

impl Book for ListedBook<'_> {
    ghost use Rattle.books.specs.Books.{listed_book};
    ghost use Rattle.keyed.specs.Lists.{contents};
    ghost use Rattle.books.specs.Cells.{same_cell, cell_spread};
    ghost use Rattle.books.specs.Lawfulness.{sized_lawful, listed_lawful};

    ghost meaning = { listed_book };

    fn lines(&self) -> usize {
        self.size().lines
    }

    fn periods(&self) -> usize {
        self.size().periods
    }

    fn read(&self, line: usize, period: usize) -> Option<u32> {
        if !self.size?.has(line, period) {
            return None;
        }
        let kwh = self.cells.find(&Cell::at(line, period))?;
        // No cell is given more than the limit; that none can hold more is then plain to see.
        Some(kwh.min(ENERGY_LIMIT_KWH))
    }

    fn ceiling(&self, line: usize) -> Option<u32> {
        self.size().ceiling(line)
    }

    fn sealed(&self, line: usize, period: usize) -> Option<bool> {
        self.size().sealed(line, period)
    }

    fn spare(&self) -> usize {
        if self.size.is_none() {
            return 0;
        }
        self.cells.spare()
    }

    // Beyond what every book promises: a refused posting leaves the memory as it was.
    fn post(&mut self, line: usize, period: usize, kwh: u32) -> Result<(), Refusal>
        ensures answer { result ≡ book_verdict (listed_book self.old) line period kwh }
        ensures after { listed_book self.new ≡ book_outcome (listed_book self.old) line period kwh }
        ensures refused { is_ok result ≡ false → self.new.cells.memory.now ≡ self.old.cells.memory.now }
        ensures lent { self.new.cells.memory.ghost_name ≡ self.old.cells.memory.ghost_name }
    {
        self.size().check_posting(line, period, kwh)?;
        let full = Refusal::at_cell(Reason::Full, Layer::Book, line, period);
        if self.size.is_none() {
            return Err(full);
        }
        self.cells.put(Cell::at(line, period), kwh, full)
    }

    ghost lawful = { λ book. sized_lawful _ (λ lines periods. listed_lawful lines periods (length book.cells.memory.now) (contents same_cell cell_spread book.cells)) book.size };
}
