// Energy books in memory that is handed over: a table of all cells, and a list of the filled ones.
#![tactic(auto)]

mod cell;
mod listed;
mod size;
mod table;

pub use cell::Cell;
pub use listed::ListedBook;
pub use table::{EMPTY_CELL, TableBook};
