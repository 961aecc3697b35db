// Each rule over each book.
use crate::steps::{Accounts, check_run};
use books::{Cell, ListedBook, TableBook};
use energy::{Ceilings, Seals};
use keyed::Entry;
use sharing::{FirstThen, InOrder, OnlyAmong, OwnAccount, Proportional, SharingRule};
use std::process::Abort;
use std::test::Fail;

// The same run over a table and over a list, bare and under both layers.
fn check_over_each_book<R: SharingRule>(
    rt: &impl Abort,
    rule: &R,
    first: Accounts,
    corrected: Accounts,
) -> Result<(), Fail> {
    let mut cells = [0; 768];
    check_run(
        rt,
        &mut TableBook::new(&mut cells, 8, 96),
        rule,
        first,
        corrected,
    )?;
    let table = TableBook::new(&mut cells, 8, 96);
    check_run(
        rt,
        &mut Ceilings::new(Seals::new(table)),
        rule,
        first,
        corrected,
    )?;
    let mut memory = [Entry::filler(Cell { line: 7, period: 0 }, 0); 8];
    check_run(
        rt,
        &mut ListedBook::new(&mut memory, 8, 96),
        rule,
        first,
        corrected,
    )?;
    let listed = ListedBook::new(&mut memory, 8, 96);
    check_run(
        rt,
        &mut Ceilings::new(Seals::new(listed)),
        rule,
        first,
        corrected,
    )
}

#[test]
fn in_proportion(rt: HostRuntime) -> Result<(), Fail> {
    check_over_each_book(
        &rt,
        &Proportional::RULE,
        [
            (1_714, 2_286, 1_140),
            (-2_000, 0, -12_000),
            (-1_000, 0, -6_000),
            (1_286, 1_714, 860),
        ],
        [
            (2_000, 2_000, 22_000),
            (-2_000, 0, -12_000),
            (-1_000, 0, -6_000),
            (1_000, 1_000, 11_000),
        ],
    )
}

#[test]
fn in_order(rt: HostRuntime) -> Result<(), Fail> {
    check_over_each_book(
        &rt,
        &InOrder::RULE,
        [
            (3_000, 1_000, 14_000),
            (-2_000, 0, -12_000),
            (-1_000, 0, -6_000),
            (0, 3_000, -12_000),
        ],
        [
            (3_000, 1_000, 23_000),
            (-2_000, 0, -12_000),
            (-1_000, 0, -6_000),
            (0, 2_000, 10_000),
        ],
    )
}

#[test]
fn on_own_account(rt: HostRuntime) -> Result<(), Fail> {
    check_over_each_book(
        &rt,
        &OwnAccount,
        [
            (0, 4_000, -16_000),
            (0, -2_000, 8_000),
            (0, -1_000, 4_000),
            (0, 3_000, -12_000),
        ],
        [
            (0, 4_000, 20_000),
            (0, -2_000, -10_000),
            (0, -1_000, -5_000),
            (0, 2_000, 10_000),
        ],
    )
}

// Members 2 and 3 net between themselves, and then everybody in proportion.
#[test]
fn first_among_two(rt: HostRuntime) -> Result<(), Fail> {
    let rule = FirstThen {
        first: OnlyAmong {
            among: 12,
            rule: InOrder::RULE,
        },
        second: Proportional::RULE,
    };
    check_over_each_book(
        &rt,
        &rule,
        [
            (1_333, 2_667, -2_670),
            (-2_000, 0, -12_000),
            (-1_000, 0, -6_000),
            (1_667, 1_333, 4_670),
        ],
        [
            (1_600, 2_400, 21_600),
            (-2_000, 0, -12_000),
            (-1_000, 0, -6_000),
            (1_400, 600, 11_400),
        ],
    )
}
