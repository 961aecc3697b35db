// What is refused, and whom the refusal names; and sheets.
use crate::steps::{GROUP, energy_of, post_all, refused};
use books::TableBook;
use energy::{Book, Seals};
use posting::{MemberEnergy, Opening};
use refusal::{Layer, Reason, Refusal};
use settlement::{
    Account, Ledger, Mark, draw_sheet, open, post_price, post_reading, post_schedule, reopen,
    settle,
};
use sharing::{OwnAccount, Proportional};
use std::test::Fail;

#[test]
fn of_openings(rt: HostRuntime) {
    let mut marks = [Mark::Unpriced; 96];
    let mut accounts = [Account::default(); 4];
    let mut ledger = Ledger {
        opening: GROUP,
        marks: &mut marks,
        accounts: &mut accounts,
    };
    ledger.opening.consumers = 16;
    assert_eq!(rt;
        open(&mut ledger),
        refused(Reason::OutsideLimits, 64, 65_535)
    );
    ledger.opening = Opening { days: 2, ..GROUP };
    assert_eq!(rt; open(&mut ledger), refused(Reason::WrongLength, 64, 65_535));
}

#[test]
fn of_periods(rt: HostRuntime) -> Result<(), Fail> {
    let rule = &OwnAccount;
    let mut marks = [Mark::Unpriced; 96];
    let mut accounts = [Account::default(); 4];
    let mut ledger = Ledger {
        opening: GROUP,
        marks: &mut marks,
        accounts: &mut accounts,
    };
    let mut cells = [0; 768];
    let mut book = TableBook::new(&mut cells, 8, 96);
    open(&mut ledger)?;
    assert_eq!(rt;
        settle(&mut ledger, &book, rule, 96),
        refused(Reason::NoSuchPeriod, 64, 96)
    );
    assert_eq!(rt;
        settle(&mut ledger, &book, rule, 0),
        refused(Reason::NoPrice, 64, 0)
    );
    assert_eq!(rt;
        reopen(&mut ledger, &book, rule, 0),
        refused(Reason::PeriodNotSettled, 64, 0)
    );
    let answer = post_price(&mut ledger, 0, 30_000_001);
    assert_eq!(rt; answer, refused(Reason::FigureOutOfRange, 64, 0));
    post_price(&mut ledger, 0, 30_000_000)?;
    post_schedule(&ledger, &mut book, energy_of(0, 1))?;
    post_reading(&ledger, &mut book, energy_of(0, 1))?;
    assert_eq!(rt;
        settle(&mut ledger, &book, rule, 0),
        refused(Reason::EnergyMissing, 1, 0)
    );
    Ok(())
}

#[test]
fn of_postings(rt: HostRuntime) -> Result<(), Fail> {
    let mut marks = [Mark::Unpriced; 96];
    let mut accounts = [Account::default(); 4];
    let mut ledger = Ledger {
        opening: GROUP,
        marks: &mut marks,
        accounts: &mut accounts,
    };
    let mut cells = [0; 768];
    let mut small = TableBook::new(&mut cells[0..672], 7, 96);
    open(&mut ledger)?;
    let answer = post_schedule(&ledger, &mut small, energy_of(0, 1));
    assert_eq!(rt; answer, refused(Reason::BookTooSmall, 0, 0));
    let mut book = Seals::new(TableBook::new(&mut cells, 8, 96));
    let answer = post_schedule(&ledger, &mut book, energy_of(4, 1));
    assert_eq!(rt; answer, refused(Reason::NoSuchMember, 4, 0));
    book.seal(0)?;
    let answer = post_schedule(&ledger, &mut book, energy_of(3, 1));
    let sealed = Refusal::concerning(Reason::Sealed, Layer::Seal, 3, 0);
    assert_eq!(rt; answer, Err(sealed), "passed up whole");
    Ok(())
}

#[test]
fn of_a_ledger(rt: HostRuntime) {
    let mut marks = [Mark::Unpriced; 96];
    let mut accounts = [Account::default(); 4];
    accounts[2].money = 100_000_000_000_000_001;
    let mut ledger = Ledger {
        opening: GROUP,
        marks: &mut marks,
        accounts: &mut accounts,
    };
    let answer = post_price(&mut ledger, 0, 1);
    assert_eq!(rt; answer, refused(Reason::LedgerOutOfRange, 64, 0));
}

// The sheet of the first period under the proportional rule.
fn draw<B: Book>(
    ledger: &Ledger,
    book: &B,
    inside: &mut [i32],
    outside: &mut [i32],
) -> Result<(), Refusal> {
    draw_sheet(ledger, book, &Proportional::RULE, 0, inside, outside)
}

// The sheet of a priced period writes four entries of each list, and leaves the others.
#[test]
fn of_sheets(rt: HostRuntime) -> Result<(), Fail> {
    let mut marks = [Mark::Unpriced; 96];
    let mut accounts = [Account::default(); 4];
    let mut ledger = Ledger {
        opening: GROUP,
        marks: &mut marks,
        accounts: &mut accounts,
    };
    let mut cells = [0; 768];
    let mut book = TableBook::new(&mut cells, 8, 96);
    let mut inside = [9; 6];
    let mut outside = [9; 5];
    let mut short = [9; 3];
    open(&mut ledger)?;
    post_all(&ledger, &mut book)?;
    let answer = draw(&ledger, &book, &mut inside, &mut outside);
    assert_eq!(rt; answer, refused(Reason::NoPrice, 64, 0));
    post_price(&mut ledger, 0, -4_000)?;
    let answer = draw(&ledger, &book, &mut inside, &mut short);
    assert_eq!(rt; answer, refused(Reason::OutputTooShort, 64, 0));
    draw(&ledger, &book, &mut inside, &mut outside)?;
    assert_eq!(rt; inside, [1_714, -2_000, -1_000, 1_286, 9, 9]);
    assert_eq!(rt; outside, [2_286, 0, 0, 1_714, 9]);
    Ok(())
}
