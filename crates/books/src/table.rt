// The table book: one number for each cell, in memory that is handed over.
ghost use Rattle.std.specs.Prelude.{◌≡◌, ◌+◌, ◌*◌, true, length, is_ok, if◌then◌else◌, count_by, slice_set};
ghost use Rattle.energy.specs.Meaning.{book_verdict, book_outcome};
ghost use Rattle.books.specs.Plain.{fits_if_any};
ghost use Rattle.books.specs.Table.{vacant, kwh_in, fits_table, table_check, table_made, table_memory};

use crate::size::Size;
use charging::ENERGY_LIMIT_KWH;
use energy::Book;
use refusal::{Layer, Reason, Refusal};

// What is written for an empty cell: a number and no option, since the memory has one number for each cell.
pub const EMPTY_CELL: u32 = 4_294_967_295;

// A table whose memory does not fit has no size, and stands for a book of one line and one period without room.
// Cells lie line after line, since the memory is handed over by the caller as one slice of numbers.
// No type over any kind of cells makes one book of it and the listed book: each says of its own memory what a posting does to it.
#[derive(Drop)]
pub struct TableBook<'a> {
    cells: &'a mut [u32],
    size: Option<Size>,
    ghost fits: { fits_if_any (λ lines periods. fits_table lines periods (length cells.now)) size ≡ true },
}

// What a number of the memory says of its cell.
fn kwh_in(number: u32) -> Option<u32>
    ensures { result ≡ kwh_in number }
{
    (number <= ENERGY_LIMIT_KWH).then_some(number)
}

// How many numbers say that their cell is empty. By hand: `filter` and `count` take twice the time.
fn vacancies(cells: &[u32]) -> usize
    ensures { result ≡ count_by vacant cells.now }
{
    let mut count = 0;
    for number in cells {
        if *number > ENERGY_LIMIT_KWH {
            count += 1;
        }
    }
    count
}

impl<'a> TableBook<'a> {
    ghost use Rattle.books.specs.Books.{table_book};

    // Whether a table of this size can be made in memory of so many numbers.
    pub fn check(size: usize, lines: usize, periods: usize) -> Result<(), Refusal>
        ensures { result ≡ table_check lines periods size }
    {
        let book = Size { lines, periods };
        if !book.is_within_limits() {
            return Err(Refusal::naming_nobody(Reason::OutsideLimits, Layer::Book));
        }
        if size != lines * periods {
            return Err(Refusal::naming_nobody(Reason::WrongLength, Layer::Book));
        }
        Ok(())
    }

    // An empty book. Where the check refuses, nothing is written, and the book has one cell and no room.
    pub fn new(cells: &'a mut [u32], lines: usize, periods: usize) -> TableBook<'a>
        ensures made { table_book result ≡ table_made lines periods (length cells.old) }
        ensures memory { result.cells.now ≡ table_memory lines periods cells.old }
        ensures lent { result.cells.ghost_name ≡ cells.entry.ghost_name }
    {
        if TableBook::check(cells.len(), lines, periods).is_err() {
            return TableBook { cells, size: None };
        }
        cells.fill(EMPTY_CELL);
        TableBook {
            cells,
            size: Some(Size { lines, periods }),
        }
    }
}

impl TableBook<'_> {
    ghost use Rattle.books.specs.Books.{table_book};

    // How many lines and periods the book has.
    fn size(&self) -> Size
        ensures lines { result.lines ≡ (table_book self.now).lines }
        ensures periods { result.periods ≡ (table_book self.now).periods }
    {
        self.size.unwrap_or(Size::ONE_CELL)
    }
}

impl Book for TableBook<'_> {
    ghost use Rattle.books.specs.Books.{table_book};
    ghost use Rattle.books.specs.Lawfulness.{sized_lawful, table_lawful};

    ghost meaning = { table_book };

    fn lines(&self) -> usize {
        self.size().lines
    }

    fn periods(&self) -> usize {
        self.size().periods
    }

    fn read(&self, line: usize, period: usize) -> Option<u32> {
        let size = self.size?;
        if !size.has(line, period) {
            return None;
        }
        kwh_in(self.cells[size.place(line, period)])
    }

    fn ceiling(&self, line: usize) -> Option<u32> {
        self.size().ceiling(line)
    }

    fn sealed(&self, line: usize, period: usize) -> Option<bool> {
        self.size().sealed(line, period)
    }

    fn spare(&self) -> usize {
        if self.size.is_none() {
            return 0;
        }
        vacancies(self.cells)
    }

    // Beyond what every book promises: the memory after, of which at most the number of that cell is another.
    fn post(&mut self, line: usize, period: usize, kwh: u32) -> Result<(), Refusal>
        ensures answer { result ≡ book_verdict (table_book self.old) line period kwh }
        ensures after { table_book self.new ≡ book_outcome (table_book self.old) line period kwh }
        ensures memory { self.new.cells.now ≡ (if is_ok result then slice_set self.old.cells.now (line * (table_book self.old).periods + period) kwh else self.old.cells.now) }
        ensures lent { self.new.cells.ghost_name ≡ self.old.cells.ghost_name }
    {
        self.size().check_posting(line, period, kwh)?;
        let Some(size) = self.size else {
            return Err(Refusal::at_cell(Reason::Full, Layer::Book, line, period));
        };
        let place = size.place(line, period);
        self.cells[place] = kwh;
        Ok(())
    }

    ghost lawful = { λ book. sized_lawful _ (λ lines periods. table_lawful lines periods book.cells.now) book.size };
}
