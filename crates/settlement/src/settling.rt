// Settling periods, and reopening them.
// Book and rule are handed to each call and are no part of the run: between two calls the book is posted to.
ghost use Rattle.ledger.specs.Calls.{Settles, Reopens};
ghost use Rattle.ledger.specs.Judgement.{SameMemory, held_in};
ghost use Rattle.settlement.specs.Promises.{GoesOn, Undoes};
ghost use Rattle.settlement.specs.Tally.{settle as settle_call, reopen as reopen_call};

use energy::Book;
use ledger::Ledger;
use refusal::Refusal;
use sharing::SharingRule;

// Settles a priced period under a sharing rule.
pub fn settle<B: Book, R: SharingRule>(
    ledger: &mut Ledger,
    book: &B,
    rule: &R,
    period: u16,
) -> Result<(), Refusal>
    ensures does { Settles ledger.old.opening (R.SharingRule.meaning rule.now) (B.Book.meaning book.now) period result (held_in ledger.old) (held_in ledger.new) }
    ensures same { SameMemory ledger.old ledger.new }
    ensures goes_on { GoesOn ledger.old.opening (R.SharingRule.meaning rule.now) (settle_call period) result (held_in ledger.old) (B.Book.meaning book.now) (held_in ledger.new) (B.Book.meaning book.now) }
{
    ledger.settle_period(book, rule, period)
}

// Reopens a settled period, so that it can be posted to and settled anew.
pub fn reopen<B: Book, R: SharingRule>(
    ledger: &mut Ledger,
    book: &B,
    rule: &R,
    period: u16,
) -> Result<(), Refusal>
    ensures does { Reopens ledger.old.opening (R.SharingRule.meaning rule.now) (B.Book.meaning book.now) period result (held_in ledger.old) (held_in ledger.new) }
    ensures same { SameMemory ledger.old ledger.new }
    ensures goes_on { GoesOn ledger.old.opening (R.SharingRule.meaning rule.now) (reopen_call period) result (held_in ledger.old) (B.Book.meaning book.now) (held_in ledger.new) (B.Book.meaning book.now) }
    ensures undoes { Undoes ledger.old.opening (R.SharingRule.meaning rule.now) (B.Book.meaning book.now) period result (held_in ledger.old) (held_in ledger.new) }
{
    ledger.reopen_period(book, rule, period)
}
