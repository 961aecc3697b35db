// The sheet of a group as text, part by part.
ghost use Rattle.std.specs.Prelude.{◌≡◌, Some};
ghost use Rattle.explanation.specs.Words.{amounts, member_line, member_lines, total_line, internal_line, drawn_lines, sheet_text};

use crate::group::GroupSheet;
use sharing::MOST_MEMBERS;
use sheet::{SheetLine, Totals, totals};
use std::fmt;

#[derive(Clone, Copy)]
struct Amounts(Totals);

impl fmt::Display for Amounts {
    ghost output = { λ a. Some (amounts a.0) };

    fn fmt<W: fmt::Write>(&self, f: &mut fmt::Formatter<W>) -> fmt::Result {
        let Totals {
            imbalance_kwh,
            netted_kwh,
            outside_kwh,
            money,
        } = self.0;
        write!(
            f,
            ": imbalance {imbalance_kwh}, netted {netted_kwh}, outside {outside_kwh}, money {money}\n"
        )
    }
}

#[derive(Clone, Copy)]
struct MemberLine(usize, SheetLine);

impl fmt::Display for MemberLine {
    ghost output = { λ l. Some (member_line l.0 l.1) };

    fn fmt<W: fmt::Write>(&self, f: &mut fmt::Formatter<W>) -> fmt::Result {
        let number = self.0;
        let amounts = Amounts(Totals::from(self.1));
        write!(f, "Member {number}{amounts}")
    }
}

// The line of each member, by his number.
#[derive(Clone, Copy)]
struct MemberLines<'a>(&'a [SheetLine]);

impl fmt::Display for MemberLines<'_> {
    ghost output = { λ l. Some (member_lines 0 l.0.now) };

    fn fmt<W: fmt::Write>(&self, f: &mut fmt::Formatter<W>) -> fmt::Result {
        for (number, line) in self.0.iter().enumerate() {
            let line = MemberLine(number, *line);
            write!(f, "{line}")?;
        }
        Ok(())
    }
}

#[derive(Clone, Copy)]
struct TotalLine(Totals);

impl fmt::Display for TotalLine {
    ghost output = { λ l. Some (total_line l.0) };

    fn fmt<W: fmt::Write>(&self, f: &mut fmt::Formatter<W>) -> fmt::Result {
        let amounts = Amounts(self.0);
        write!(f, "Total{amounts}")
    }
}

#[derive(Clone, Copy)]
struct InternalLine(i32);

impl fmt::Display for InternalLine {
    ghost output = { λ l. Some (internal_line l.0) };

    fn fmt<W: fmt::Write>(&self, f: &mut fmt::Formatter<W>) -> fmt::Result {
        let price = self.0;
        write!(
            f,
            "Netted in proportion, at an internal price of {price} stotinki per MWh. Energy in kWh, money in thousandths of a stotinka.\n"
        )
    }
}

impl GroupSheet {
    fn drawn_lines(&self) -> &[SheetLine]
        ensures { result.now ≡ drawn_lines self.now }
    {
        &self.lines[0..self.members.min(MOST_MEMBERS)]
    }
}

impl fmt::Display for GroupSheet {
    ghost output = { λ s. Some (sheet_text s) };

    fn fmt<W: fmt::Write>(&self, f: &mut fmt::Formatter<W>) -> fmt::Result {
        let internal = InternalLine(self.internal_price);
        let lines = MemberLines(self.drawn_lines());
        let total = TotalLine(totals(self.drawn_lines()));
        write!(f, "{internal}{lines}{total}")
    }
}
