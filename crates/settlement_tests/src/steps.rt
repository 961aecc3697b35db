// What the runs have in common: a group of four members, and one period of its first day.
use energy::Book;
use posting::{MemberEnergy, Opening};
use pricing::{Activation, Activations, SystemFigures};
use refusal::{Layer, Reason, Refusal};
use settlement::{
    Account, Ledger, Mark, invoice, open, post_figures, post_price, post_reading, post_schedule,
    reopen, settle,
};
use sharing::SharingRule;
use std::process::Abort;
use std::test::Fail;

pub const GROUP: Opening = Opening {
    members: 4,
    days: 1,
    consumers: 6,
    internal_price: 6_000,
};

const NOTHING: Activation = Activation { kwh: 0, price: 0 };

// They give a price of -4,000.
const FIGURES: SystemFigures = SystemFigures {
    imbalance_kwh: 80_000,
    downward: Activations {
        automatic: Activation {
            kwh: 60_000,
            price: 4_000,
        },
        manual: Activation {
            kwh: 20_000,
            price: -2_000,
        },
        replacement: NOTHING,
    },
    upward: Activations {
        automatic: NOTHING,
        manual: NOTHING,
        replacement: NOTHING,
    },
    downward_bid: None,
    upward_bid: None,
    index: 9_000,
};

// What is posted for a member in the first period.
pub fn energy_of(member: u8, kwh: u32) -> MemberEnergy {
    MemberEnergy {
        member,
        period: 0,
        kwh,
    }
}

// Posts the schedules and readings of the four members in the first period.
pub fn post_all<B: Book>(ledger: &Ledger, book: &mut B) -> Result<(), Refusal> {
    for (member, schedule, reading) in [
        (0, 10_000, 14_000),
        (1, 5_000, 7_000),
        (2, 1_000, 2_000),
        (3, 0, 3_000),
    ] {
        post_schedule(ledger, book, energy_of(member, schedule))?;
        post_reading(ledger, book, energy_of(member, reading))?;
    }
    Ok(())
}

// Inside and outside kWh of each member, and his invoice in stotinki.
pub type Accounts = [(i64, i64, i64); 4];

pub fn check_accounts(rt: &impl Abort, ledger: &Ledger, expected: Accounts) -> Result<(), Fail> {
    assert!(rt; ledger.accounts.len() == 4);
    let accounts = ledger.accounts.iter().zip(expected);
    for (member, (account, (inside, outside, stotinki))) in (0..4u8).zip(accounts) {
        assert_eq!(rt; account.inside_kwh, inside);
        assert_eq!(rt; account.outside_kwh, outside);
        assert_eq!(rt; invoice(ledger, member)?, stotinki);
    }
    Ok(())
}

// A refusal by the run.
pub fn refused(reason: Reason, member: usize, period: usize) -> Result<(), Refusal> {
    Err(Refusal::concerning(reason, Layer::Run, member, period))
}

// A run that is opened over a ledger full of other things, settles its first period, and settles it anew at another price
// once a reading was corrected.
pub fn check_run<B: Book, R: SharingRule>(
    rt: &impl Abort,
    book: &mut B,
    rule: &R,
    first: Accounts,
    corrected: Accounts,
) -> Result<(), Fail> {
    let mut marks = [Mark::Settled(7); 96];
    let mut accounts = [Account {
        money: 7,
        ..Account::default()
    }; 4];
    let mut ledger = Ledger {
        opening: GROUP,
        marks: &mut marks,
        accounts: &mut accounts,
    };
    open(&mut ledger)?;
    post_all(&ledger, book)?;
    post_figures(&mut ledger, 0, &FIGURES)?;
    settle(&mut ledger, book, rule, 0)?;
    check_accounts(rt, &ledger, first)?;
    let correction = energy_of(3, 2_000);
    assert_eq!(rt;
        post_reading(&ledger, book, correction),
        refused(Reason::PeriodSettled, 3, 0)
    );
    reopen(&mut ledger, book, rule, 0)?;
    check_accounts(rt, &ledger, [(0, 0, 0); 4])?;
    post_reading(&ledger, book, correction)?;
    post_price(&mut ledger, 0, 5_000)?;
    settle(&mut ledger, book, rule, 0)?;
    check_accounts(rt, &ledger, corrected)
}
