// The judgement of figures, ledger and book with which every later call of a run begins.
ghost use Rattle.std.specs.Prelude.{◌≡◌, ◌≤◌, Bool, IfOk};
ghost use Rattle.sharing.specs.Verdict.{most_members};
ghost use Rattle.ledger.specs.Answers.{answered};
ghost use Rattle.ledger.specs.Judged.{IsOf};
ghost use Rattle.ledger.specs.Judgement.{held_in, periods_of, account_in_range, mark_in_range, every, lengths_fit, in_range, book_fits, consumers_fit, figures_fit, ledger_verdict, figures_verdict, judged, judged_with_book};

use crate::entries::{Account, Ledger, Mark};
use crate::judged::JudgedRun;
use charging::INTERNAL_PRICE_LIMIT;
use energy::{Book, MOST_DAYS, PERIODS_PER_DAY};
use posting::Opening;
use pricing::PRICE_LIMIT;
use refusal::{Concern, Layer, Reason, Refusal};
use sharing::MOST_MEMBERS;

// Well above what 2,976 periods of 500,000 kWh can bring a member.
const ACCOUNT_KWH_LIMIT: u64 = 10_000_000_000;

// Above what those periods can bring at any price; and the sum of 64 such accounts still has 64 bits.
const ACCOUNT_MONEY_LIMIT: u64 = 100_000_000_000_000_000;

// What a ledger has a list of.
trait Entry {
    ghost fits: { Self → Bool };

    fn in_range(&self) -> bool
        ensures { result ≡ fits self.now };
}

impl Entry for Account {
    ghost fits = { account_in_range };

    fn in_range(&self) -> bool {
        self.inside_kwh.unsigned_abs() <= ACCOUNT_KWH_LIMIT
            && self.outside_kwh.unsigned_abs() <= ACCOUNT_KWH_LIMIT
            && self.money.unsigned_abs() <= ACCOUNT_MONEY_LIMIT
    }
}

impl Entry for Mark {
    ghost fits = { mark_in_range };

    fn in_range(&self) -> bool {
        self.price()
            .is_none_or(|price| price.unsigned_abs() <= PRICE_LIMIT)
    }
}

fn all_in_range<E: Entry>(entries: &[E]) -> bool
    ensures { result ≡ every E.Entry.fits entries.now }
{
    for entry in entries {
        if !entry.in_range() {
            return false;
        }
    }
    true
}

// Whether no consumer's number is that of the members or above it; 128 bits, since 64 may be shifted out.
fn consumers_fit(opening: &Opening) -> bool
    requires { opening.now.members ≤ most_members }
    ensures { result ≡ consumers_fit opening.now }
{
    u128::from(opening.consumers) >> opening.members == 0
}

impl Ledger<'_> {
    // How many periods the run has.
    pub(crate) fn periods(&self) -> usize
        ensures { result ≡ periods_of self.now.opening }
    {
        usize::from(self.opening.days) * PERIODS_PER_DAY
    }

    // Whether the memory has the lengths of the run.
    pub(crate) fn lengths_fit(&self) -> bool
        ensures { result ≡ lengths_fit self.now.opening (held_in self.now) }
    {
        self.marks.len() == self.periods()
            && self.accounts.len() == usize::from(self.opening.members)
    }

    fn in_range(&self) -> bool
        ensures { result ≡ in_range (held_in self.now) }
    {
        all_in_range(self.accounts) && all_in_range(self.marks)
    }

    fn book_fits<B: Book>(&self, book: &B) -> bool
        ensures { result ≡ book_fits self.now.opening (B.Book.meaning book.now) }
    {
        2 * usize::from(self.opening.members) <= book.lines() && self.periods() <= book.periods()
    }

    // Whether a run can be opened with these figures.
    pub(crate) fn figures_fit(&self) -> bool
        ensures { result ≡ figures_fit self.now.opening }
    {
        let Opening {
            members,
            days,
            internal_price,
            ..
        } = self.opening;
        1 <= members
            && usize::from(members) <= MOST_MEMBERS
            && 1 <= days
            && usize::from(days) <= MOST_DAYS
            && consumers_fit(&self.opening)
            && internal_price.unsigned_abs() <= INTERNAL_PRICE_LIMIT
    }

    fn judge_ledger(&self, who: Concern) -> Result<(), Refusal>
        ensures { result ≡ ledger_verdict who self.now.opening (held_in self.now) }
    {
        if !self.lengths_fit() {
            return Err(who.refused(Reason::WrongLength, Layer::Run));
        }
        if !self.in_range() {
            return Err(who.refused(Reason::LedgerOutOfRange, Layer::Run));
        }
        Ok(())
    }

    fn judge_figures(&self, who: Concern) -> Result<(), Refusal>
        ensures { result ≡ figures_verdict who self.now.opening }
    {
        if !self.figures_fit() {
            return Err(who.refused(Reason::OutsideLimits, Layer::Run));
        }
        Ok(())
    }

    // The judgement of a call that is given no book.
    pub(crate) fn judge(&self, who: Concern) -> Result<JudgedRun<'_>, Refusal>
        ensures answer { answered result ≡ judged who self.now.opening (held_in self.now) }
        ensures same { IfOk result (IsOf self.now) }
    {
        self.judge_ledger(who)?;
        self.judge_figures(who)?;
        Ok(JudgedRun {
            opening: self.opening,
            marks: self.marks,
            accounts: self.accounts,
        })
    }

    // The judgement of a call that is given a book; it is asked between the tests that both judgements make.
    pub(crate) fn judge_with_book<B: Book>(
        &self,
        book: &B,
        who: Concern,
    ) -> Result<JudgedRun<'_>, Refusal>
        ensures answer { answered result ≡ judged_with_book who self.now.opening (held_in self.now) (B.Book.meaning book.now) }
        ensures same { IfOk result (IsOf self.now) }
    {
        self.judge_ledger(who)?;
        if !self.book_fits(book) {
            return Err(who.refused(Reason::BookTooSmall, Layer::Run));
        }
        self.judge_figures(who)?;
        Ok(JudgedRun {
            opening: self.opening,
            marks: self.marks,
            accounts: self.accounts,
        })
    }
}
