// A quarter of an hour explained: from the text that describes it to the text that says how its price came about, and what
// the members of the group net and are paid.
#![tactic(auto)]

mod failure;
mod group;
mod if_any;
mod report;
mod sheet_text;
mod text;

pub use failure::Failure;
pub use group::GroupSheet;
pub use report::Report;
pub use text::explain;
