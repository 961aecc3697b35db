// What a book says of the members in a period, and the sheet that is drawn of it.
ghost use Rattle.std.specs.Prelude.{◌≡◌, ◌<◌, ◌≤◌, length, OnOk, IfOk, unsigned_abs};
ghost use Rattle.pricing.specs.Limits.{price_limit};
ghost use Rattle.sharing.specs.Verdict.{most_members};
ghost use Rattle.sheet.specs.Lines.{sheet_of};
ghost use Rattle.ledger.specs.Answers.{answered};
ghost use Rattle.ledger.specs.Energies.{role_of, all_known, position_answer, positions_of as all_positions};

use crate::judged::JudgedRun;
use arrayvec::ArrayVec;
use charging::{Position, Prices, Role};
use energy::Book;
use posting::Opening;
use refusal::{Concern, Layer, Reason, Refusal};
use sharing::{MOST_MEMBERS, SharingRule, contains};
use sheet::{SheetLine, draw};

fn role_of(consumers: u64, member: u8) -> Role
    ensures { result ≡ role_of consumers member }
{
    if contains(consumers, usize::from(member)) {
        Role::Consumer
    } else {
        Role::Producer
    }
}

// The position of one member, whose two energies have to be there.
fn position_of<B: Book>(
    opening: &Opening,
    book: &B,
    member: u8,
    period: u16,
) -> Result<Position, Refusal>
    ensures { result ≡ position_answer opening.now (B.Book.meaning book.now).cell period member }
{
    let who = Concern::new(usize::from(member), usize::from(period));
    let line = 2 * usize::from(member);
    let Some(schedule_kwh) = book.read(line, usize::from(period)) else {
        return Err(who.refused(Reason::EnergyMissing, Layer::Run));
    };
    let Some(reading_kwh) = book.read(line + 1, usize::from(period)) else {
        return Err(who.refused(Reason::EnergyMissing, Layer::Run));
    };
    Ok(Position {
        role: role_of(opening.consumers, member),
        schedule_kwh,
        reading_kwh,
    })
}

// The position of each member.
fn positions_of<B: Book>(
    opening: &Opening,
    book: &B,
    period: u16,
) -> Result<ArrayVec<Position, MOST_MEMBERS>, Refusal>
    requires { opening.now.members ≤ most_members }
    ensures answer { answered result ≡ all_known opening.now.members (B.Book.meaning book.now).cell period }
    ensures listed { IfOk result (λ positions. positions.items ≡ all_positions opening.now (B.Book.meaning book.now).cell period) }
{
    let mut positions = ArrayVec::new();
    for member in 0..opening.members {
        positions.push(position_of(opening, book, member, period)?);
    }
    Ok(positions)
}

impl JudgedRun<'_> {
    // Draws the sheet of a period at a price, if no energy is missing.
    pub(crate) fn draw_period<B: Book, R: SharingRule>(
        &self,
        book: &B,
        rule: &R,
        period: u16,
        price: i32,
        lines: &mut [SheetLine],
    ) -> Result<(), Refusal>
        requires room { length lines.old ≡ self.now.opening.members }
        requires priced { unsigned_abs price ≤ price_limit }
        ensures answer { result ≡ all_known self.now.opening.members (B.Book.meaning book.now).cell period }
        ensures after { OnOk result (lines.new ≡ sheet_of (R.SharingRule.meaning rule.now) self.now.opening.internal_price price (all_positions self.now.opening (B.Book.meaning book.now).cell period)) }
    {
        let opening = &self.opening;
        let positions = positions_of(opening, book, period)?;
        let prices = Prices {
            internal: opening.internal_price,
            outside: price,
        };
        draw(rule, prices, positions.as_slice(), lines)
    }
}
