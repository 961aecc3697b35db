// The sheet of the group that a description lists, netted in proportion.
ghost use Rattle.std.specs.Prelude.{◌≡◌, IfOk};
ghost use Rattle.explanation.specs.Explained.{group_sheet, SheetAddsUp};

use charging::Prices;
use description::Group;
use refusal::Refusal;
use sharing::{MOST_MEMBERS, Proportional};
use sheet::SheetLine;

// Room for the lines of the largest group, filled by the numbers of the members: an array and a count, so that it can be copied.
#[derive(Clone, Copy)]
pub struct GroupSheet {
    pub internal_price: i32,
    pub lines: [SheetLine; MOST_MEMBERS],
    pub members: usize,
}

pub fn draw_sheet(group: &Group, price: i32) -> Result<GroupSheet, Refusal>
    ensures value { result ≡ group_sheet group.now price }
    ensures adds_up { IfOk result (SheetAddsUp price) }
{
    let internal_price = group.internal_price;
    let prices = Prices {
        internal: internal_price,
        outside: price,
    };
    let positions = group.members.positions();
    let members = positions.len();
    let mut lines = [SheetLine::default(); MOST_MEMBERS];
    sheet::draw(
        &Proportional::RULE,
        prices,
        positions,
        &mut lines[0..members],
    )?;
    Ok(GroupSheet {
        internal_price,
        lines,
        members,
    })
}
