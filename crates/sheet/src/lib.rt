// The sheet of a quarter of an hour of a balancing group: who netted what inside, what was left outside, and the money.
#![tactic(auto)]

mod check;
mod drawing;
mod line;
mod sums;

pub use drawing::{blank_lines, draw};
pub use line::{SheetLine, Totals};
pub use sums::totals;
