// What a run tells its members: the sheets of its periods and the invoices.
ghost use Rattle.std.specs.Prelude.{◌≡◌};
ghost use Rattle.ledger.specs.Calls.{Draws, lists};
ghost use Rattle.ledger.specs.Invoices.{invoice_answer};
ghost use Rattle.ledger.specs.Judgement.{held_in};
ghost use Rattle.settlement.specs.Fair.{Fair};
ghost use Rattle.settlement.specs.Promises.{GoesOn};
ghost use Rattle.settlement.specs.Tally.{draw_sheet};

use energy::Book;
use ledger::Ledger;
use refusal::Refusal;
use sharing::SharingRule;

// Draws the sheet of a period: what each member nets inside the group, and what is left outside.
// It is written into two lists that the caller lends, and not into one of pairs, by the rules of the project.
pub fn draw_sheet<B: Book, R: SharingRule>(
    ledger: &Ledger,
    book: &B,
    rule: &R,
    period: u16,
    inside_kwh: &mut [i32],
    outside_kwh: &mut [i32],
) -> Result<(), Refusal>
    ensures does { Draws ledger.now.opening (R.SharingRule.meaning rule.now) (held_in ledger.now) (B.Book.meaning book.now) period result (lists inside_kwh.old outside_kwh.old) (lists inside_kwh.new outside_kwh.new) }
    ensures goes_on { GoesOn ledger.now.opening (R.SharingRule.meaning rule.now) (draw_sheet period) result (held_in ledger.now) (B.Book.meaning book.now) (held_in ledger.now) (B.Book.meaning book.now) }
{
    ledger.write_sheet(book, rule, period, inside_kwh, outside_kwh)
}

// The invoice of a member, in whole stotinki; below zero he pays.
pub fn invoice(ledger: &Ledger, member: u8) -> Result<i64, Refusal>
    ensures does { result ≡ invoice_answer ledger.now.opening (held_in ledger.now) member }
    ensures fair { Fair ledger.now.opening.members (held_in ledger.now).accounts }
{
    ledger.invoice_line(member)
}
