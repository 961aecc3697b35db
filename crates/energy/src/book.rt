// What every energy book does.
ghost use Rattle.std.specs.Prelude.{◌≡◌};
ghost use Rattle.energy.specs.Meaning.{Meaning, Lawful, ceiling_told, seal_told, book_verdict, book_outcome};

use refusal::Refusal;

// Line 2i holds the schedules of member i, line 2i + 1 his readings; a cell is a line in a period.
// Line and period stand apart, as row and column of a table do: a pair of them would say no more than the two.
pub trait Book {
    ghost meaning: { Self → Meaning };

    fn lines(&self) -> usize
        ensures { result ≡ (meaning self.now).lines };

    fn periods(&self) -> usize
        ensures { result ≡ (meaning self.now).periods };

    // The kWh of a cell, or nothing if it is empty or outside.
    fn read(&self, line: usize, period: usize) -> Option<u32>
        ensures { result ≡ (meaning self.now).cell line period };

    // The most kWh that a line takes, or nothing outside.
    fn ceiling(&self, line: usize) -> Option<u32>
        ensures { result ≡ ceiling_told (meaning self.now) line };

    // Whether a cell is sealed, or nothing outside.
    fn sealed(&self, line: usize, period: usize) -> Option<bool>
        ensures { result ≡ seal_told (meaning self.now) line period };

    // How many empty cells may still be filled.
    fn spare(&self) -> usize
        ensures { result ≡ (meaning self.now).spare };

    // Replaces what a cell holds, or refuses and leaves the book as it was.
    fn post(&mut self, line: usize, period: usize, kwh: u32) -> Result<(), Refusal>
        ensures answer { result ≡ book_verdict (meaning self.old) line period kwh }
        ensures after { meaning self.new ≡ book_outcome (meaning self.old) line period kwh };

    // What every book owes.
    ghost lawful: { (book : Self) → Lawful (meaning book) };
}
