// Energy books, their layers and the member directory on examples.
#![tactic(auto)]

#[cfg(test)]
mod tests {
    use books::{Cell, ListedBook, TableBook};
    use directory::Directory;
    use energy::{Book, Booking, Ceilings, Seals, post_to_both};
    use keyed::Entry;
    use refusal::{Layer, Reason, Refusal};
    use std::process::Abort;
    use std::test::Fail;

    // Postings to a book of two members and one day, in their order, each with its answer.
    fn post_examples<B: Book>(rt: &impl Abort, book: &mut B) {
        let examples = [
            (3, 95, 500_000, Ok(())),
            (0, 0, 0, Ok(())),
            (3, 95, 10_000, Ok(())),
            (
                4,
                96,
                500_001,
                Err(Refusal::at_cell(Reason::NoSuchPeriod, Layer::Book, 4, 96)),
            ),
            (
                4,
                95,
                500_001,
                Err(Refusal::at_cell(Reason::NoSuchLine, Layer::Book, 4, 95)),
            ),
            (
                3,
                95,
                500_001,
                Err(Refusal::at_cell(Reason::AboveCeiling, Layer::Book, 3, 95)),
            ),
            (
                70_000,
                70_000,
                1,
                Err(Refusal::at_cell(Reason::NoSuchPeriod, Layer::Book, 128, 65_535)),
            ),
        ];
        for (line, period, kwh, answer) in examples {
            assert_eq!(rt; book.post(line, period, kwh), answer);
        }
    }

    // What the book tells after them.
    fn read_examples<B: Book>(rt: &impl Abort, book: &B) {
        assert_eq!(rt; book.read(3, 95), Some(10_000), "the correction");
        assert_eq!(rt; book.read(0, 0), Some(0), "zero is no empty cell");
        assert_eq!(rt; book.read(2, 95), None, "an empty cell");
        assert_eq!(rt; book.read(4, 0), None, "outside");
        assert_eq!(rt; book.ceiling(3), Some(500_000));
        assert_eq!(rt; book.ceiling(4), None);
        assert_eq!(rt; book.sealed(3, 95), Some(false));
        assert_eq!(rt; book.sealed(0, 96), None);
    }

    #[test]
    fn table_under_both_layers(rt: HostRuntime) {
        let mut cells = [7; 384];
        let mut book = Ceilings::new(Seals::new(TableBook::new(&mut cells, 4, 96)));
        post_examples(&rt, &mut book);
        read_examples(&rt, &book);
        assert_eq!(rt; book.spare(), 382);
    }

    #[test]
    fn listed_under_both_layers(rt: HostRuntime) {
        let mut memory = [Entry::filler(
            Cell {
                line: 3,
                period: 95,
            },
            9,
        ); 2];
        let mut book = Ceilings::new(Seals::new(ListedBook::new(&mut memory, 4, 96)));
        post_examples(&rt, &mut book);
        read_examples(&rt, &book);
        assert_eq!(rt; book.spare(), 0);
        assert_eq!(rt;
            book.post(1, 1, 1),
            Err(Refusal::at_cell(Reason::Full, Layer::Book, 1, 1))
        );
        assert_eq!(rt; book.post(0, 0, 1), Ok(()), "a correction needs no room");
        assert_eq!(rt; book.read(0, 0), Some(1));
    }

    #[test]
    fn the_lower_number_and_the_lower_layer_refuse(rt: HostRuntime) -> Result<(), Fail> {
        let mut cells = [0; 400];
        let mut seals = Seals::new(TableBook::new(&mut cells, 2, 200));
        seals.seal(0)?;
        seals.seal(0)?;
        seals.seal(30)?;
        assert_eq!(rt;
            seals.seal(31),
            Err(Refusal::naming_nobody(Reason::NoSuchPeriod, Layer::Seal))
        );
        assert_eq!(rt; seals.sealed_days(), 2);
        let mut book = Ceilings::new(seals);
        book.set_ceiling(1, 10)?;
        assert_eq!(rt;
            book.set_ceiling(128, 500_001),
            Err(Refusal::at_cell(Reason::FigureOutOfRange, Layer::Ceiling, 128, 65_535))
        );
        assert_eq!(rt;
            book.set_ceiling(128, 500_000),
            Err(Refusal::at_cell(Reason::NoSuchLine, Layer::Ceiling, 128, 65_535))
        );
        let examples = [
            (
                95,
                11,
                Err(Refusal::at_cell(Reason::Sealed, Layer::Seal, 1, 95)),
            ),
            (
                96,
                11,
                Err(Refusal::at_cell(Reason::AboveCeiling, Layer::Ceiling, 1, 96)),
            ),
            (
                96,
                500_001,
                Err(Refusal::at_cell(Reason::AboveCeiling, Layer::Book, 1, 96)),
            ),
            (96, 10, Ok(())),
        ];
        for (period, kwh, answer) in examples {
            assert_eq!(rt; book.post(1, period, kwh), answer);
        }
        assert_eq!(rt; book.ceiling(1), Some(10));
        let mut unsealed = book.into_below().into_below();
        assert_eq!(rt; unsealed.post(1, 95, 11), Ok(()), "without the layers");
        Ok(())
    }

    #[test]
    fn what_does_not_fit_has_no_room(rt: HostRuntime) {
        assert_eq!(rt;
            TableBook::check(5, 2, 0),
            Err(Refusal::naming_nobody(Reason::OutsideLimits, Layer::Book))
        );
        assert_eq!(rt;
            TableBook::check(5, 2, 2),
            Err(Refusal::naming_nobody(Reason::WrongLength, Layer::Book))
        );
        assert_eq!(rt;
            ListedBook::check(65_536, 128, 2_976),
            Err(Refusal::naming_nobody(Reason::WrongLength, Layer::Book))
        );
        assert_eq!(rt; ListedBook::check(65_535, 128, 2_976), Ok(()));
        let mut cells = [3; 5];
        let mut book = TableBook::new(&mut cells, 2, 2);
        assert_eq!(rt; (book.lines(), book.periods(), book.spare()), (1, 1, 0));
        assert_eq!(rt;
            book.post(0, 0, 3),
            Err(Refusal::at_cell(Reason::Full, Layer::Book, 0, 0))
        );
        assert_eq!(rt; cells[0] + cells[4], 6, "nothing was written");
    }

    #[test]
    fn two_kinds_of_book_agree(rt: HostRuntime) {
        let mut cells = [0; 4];
        let mut memory = [Entry::filler(Cell { line: 0, period: 0 }, 0); 4];
        let mut table = TableBook::new(&mut cells, 2, 2);
        let mut listed = ListedBook::new(&mut memory, 2, 2);
        let bookings = [
            Booking {
                line: 1,
                period: 1,
                kwh: 5,
            },
            Booking {
                line: 1,
                period: 2,
                kwh: 6,
            },
            Booking {
                line: 1,
                period: 1,
                kwh: 7,
            },
        ];
        assert_eq!(rt; post_to_both(&mut table, &mut listed, &bookings), (2, 2));
        assert_eq!(rt; (table.read(1, 1), listed.read(1, 1)), (Some(7), Some(7)));
    }

    // Contract numbers whose search starts at one place.
    #[test]
    fn directory(rt: HostRuntime) -> Result<(), Fail> {
        let mut memory = [Entry::filler(7, 63); 3];
        let mut directory = Directory::new(&mut memory);
        assert_eq!(rt; directory.find(7), None);
        for (contract, member) in [(7, 1), (10, 2), (13, 3), (7, 63)] {
            directory.enter(contract, member)?;
        }
        assert_eq!(rt;
            (directory.find(7), directory.find(10), directory.find(13)),
            (Some(63), Some(2), Some(3))
        );
        assert_eq!(rt; directory.find(1), None);
        assert_eq!(rt;
            directory.enter(1, 64),
            Err(Refusal::concerning(Reason::NoSuchMember, Layer::Directory, 64, 65_535))
        );
        assert_eq!(rt;
            directory.enter(1, 5),
            Err(Refusal::concerning(Reason::Full, Layer::Directory, 5, 65_535))
        );
        assert_eq!(rt; directory.find(1), None);
        Ok(())
    }
}
