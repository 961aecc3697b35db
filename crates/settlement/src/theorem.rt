// The theorem that the accounts add up.
ghost use Rattle.settlement.specs.Accounts.{AccountsAddUp};

use energy::Book;
use sharing::SharingRule;

// Does nothing: its contract is the theorem, for every sharing rule and every two books.
pub fn accounts_add_up<B: Book, C: Book, R: SharingRule>(rule: &R, book: &B, other: &C)
    ensures { AccountsAddUp (R.SharingRule.meaning rule.now) (B.Book.meaning book.now) (C.Book.meaning other.now) }
{}
