// From the description of a quarter of an hour to the report on its price and on the group.
ghost use Rattle.std.specs.Prelude.{◌≡◌, IfSome, IfOk};
ghost use Rattle.explanation.specs.Explained.{explanation_of, sheet_if_any, SheetAddsUp, ReportAddsUp};

use crate::failure::Failure;
use crate::group::{GroupSheet, draw_sheet};
use crate::report::Report;
use description::Group;
use refusal::Refusal;

fn draw_if_any(group: &Option<Group>, price: i32) -> Result<Option<GroupSheet>, Refusal>
    ensures value { result ≡ sheet_if_any group.now price }
    ensures adds_up { IfOk result (λ sheet. IfSome sheet (SheetAddsUp price)) }
{
    group
        .as_ref()
        .map(|group| draw_sheet(group, price))
        .transpose()
}

// How the price of the quarter of an hour came about that the text describes, and what its group's members net and pay.
pub fn explain(text: &[u8]) -> Result<Report, Failure>
    ensures value { result ≡ explanation_of text.now }
    ensures adds_up { IfOk result ReportAddsUp }
{
    let quarter = description::read(text)?;
    let derivation = pricing::derive(&quarter.figures)?;
    let sheet = draw_if_any(&quarter.group, derivation.price())?;
    Ok(Report { derivation, sheet })
}
