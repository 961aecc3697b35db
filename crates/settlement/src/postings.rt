// Posting schedules, readings and prices to a run.
ghost use Rattle.ledger.specs.Calls.{PostsSchedule, PostsReading, Prices};
ghost use Rattle.ledger.specs.Judgement.{SameMemory, held_in};
ghost use Rattle.ledger.specs.Marks.{published};
ghost use Rattle.pricing.specs.Prices.{price_of};
ghost use Rattle.settlement.specs.Promises.{GoesOnByAnyRule, GoesOnOverAnyBook};
ghost use Rattle.settlement.specs.Tally.{post_schedule, post_reading, post_price, post_figures};

use energy::Book;
use ledger::Ledger;
use posting::MemberEnergy;
use pricing::SystemFigures;
use refusal::Refusal;

// Posts what is scheduled for a member in a period.
pub fn post_schedule<B: Book>(
    ledger: &Ledger,
    book: &mut B,
    energy: MemberEnergy,
) -> Result<(), Refusal>
    ensures does { PostsSchedule ledger.now.opening (held_in ledger.now) energy result (B.Book.meaning book.old) (B.Book.meaning book.new) }
    ensures goes_on { GoesOnByAnyRule ledger.now.opening (post_schedule energy) result (held_in ledger.now) (B.Book.meaning book.old) (held_in ledger.now) (B.Book.meaning book.new) }
{
    ledger.enter_schedule(book, energy)
}

// Posts what was read of a member's meter for a period.
pub fn post_reading<B: Book>(
    ledger: &Ledger,
    book: &mut B,
    energy: MemberEnergy,
) -> Result<(), Refusal>
    ensures does { PostsReading ledger.now.opening (held_in ledger.now) energy result (B.Book.meaning book.old) (B.Book.meaning book.new) }
    ensures goes_on { GoesOnByAnyRule ledger.now.opening (post_reading energy) result (held_in ledger.now) (B.Book.meaning book.old) (held_in ledger.now) (B.Book.meaning book.new) }
{
    ledger.enter_reading(book, energy)
}

// Posts the published price of a period, in stotinki per MWh.
pub fn post_price(ledger: &mut Ledger, period: u16, price: i32) -> Result<(), Refusal>
    ensures does { Prices ledger.old.opening period (published price) result (held_in ledger.old) (held_in ledger.new) }
    ensures same { SameMemory ledger.old ledger.new }
    ensures goes_on { GoesOnOverAnyBook ledger.old.opening (post_price period price) result (held_in ledger.old) (held_in ledger.new) }
{
    ledger.enter_price(period, price)
}

// Posts the system figures of a period, which give its price.
pub fn post_figures(
    ledger: &mut Ledger,
    period: u16,
    figures: &SystemFigures,
) -> Result<(), Refusal>
    ensures does { Prices ledger.old.opening period (price_of figures.now) result (held_in ledger.old) (held_in ledger.new) }
    ensures same { SameMemory ledger.old ledger.new }
    ensures goes_on { GoesOnOverAnyBook ledger.old.opening (post_figures period figures.now) result (held_in ledger.old) (held_in ledger.new) }
{
    ledger.enter_figures(period, figures)
}
