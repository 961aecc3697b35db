// Drawing the sheet of a period.
ghost use Rattle.std.specs.Prelude.{◌≤◌, length, slice_index_or};
ghost use Rattle.ledger.specs.Booking.{no_line};
ghost use Rattle.ledger.specs.Calls.{Draws, Written, lists};
ghost use Rattle.ledger.specs.Judgement.{held_in};

use crate::entries::Ledger;
use energy::Book;
use refusal::{Concern, Layer, Reason, Refusal};
use sharing::SharingRule;
use sheet::{SheetLine, blank_lines};

// Writes two columns of a sheet; what stands past its last line stays.
fn write_columns(lines: &[SheetLine], inside_kwh: &mut [i32], outside_kwh: &mut [i32])
    requires inside_room { length lines.now ≤ length inside_kwh.old }
    requires outside_room { length lines.now ≤ length outside_kwh.old }
    ensures inside { Written (length lines.now) (λ i. (slice_index_or lines.now i no_line).netted_kwh) inside_kwh.old inside_kwh.new }
    ensures outside { Written (length lines.now) (λ i. (slice_index_or lines.now i no_line).outside_kwh) outside_kwh.old outside_kwh.new }
{
    // By index, since a zip over `iter_mut` tells a proof nothing of what is written.
    for (i, line) in lines.iter().enumerate() {
        inside_kwh[i] = line.netted_kwh;
        outside_kwh[i] = line.outside_kwh;
    }
}

impl Ledger<'_> {
    // Writes what each member nets inside the group in a period, and what is left outside. Two lists, by the rules of the project.
    pub fn write_sheet<B: Book, R: SharingRule>(
        &self,
        book: &B,
        rule: &R,
        period: u16,
        inside_kwh: &mut [i32],
        outside_kwh: &mut [i32],
    ) -> Result<(), Refusal>
        ensures { Draws self.now.opening (R.SharingRule.meaning rule.now) (held_in self.now) (B.Book.meaning book.now) period result (lists inside_kwh.old outside_kwh.old) (lists inside_kwh.new outside_kwh.new) }
    {
        let index = usize::from(period);
        let who = Concern::of_period(index);
        let judged = self.judge_with_book(book, who)?;
        if index >= judged.marks.len() {
            return Err(who.refused(Reason::NoSuchPeriod, Layer::Run));
        }
        let Some(price) = judged.marks[index].price() else {
            return Err(who.refused(Reason::NoPrice, Layer::Run));
        };
        let members = usize::from(judged.opening.members);
        let mut lines = blank_lines(members);
        judged.draw_period(book, rule, period, price, lines.as_mut_slice())?;
        if inside_kwh.len() < members || outside_kwh.len() < members {
            return Err(who.refused(Reason::OutputTooShort, Layer::Run));
        }
        write_columns(lines.as_slice(), inside_kwh, outside_kwh);
        Ok(())
    }
}
