// The description of a quarter of an hour as text, read into system figures.
#![tactic(auto)]

mod draft;
mod entry;
mod group;
mod keyword;
mod numbers;
mod once;
mod problem;
mod reader;
mod words;

pub use draft::Quarter;
pub use group::{Group, Members};
pub use problem::{Fault, Problem};
pub use reader::read;
