// Postings, and the records that carry them in a file.
#![tactic(auto)]

mod body;
mod fields;
mod file;
mod kind;
mod posting;
mod reader;
mod text;
mod writer;

pub use file::{Placed, Postings};
pub use posting::{MemberEnergy, Opening, Posting};
pub use reader::{Record, read_record};
pub use text::Listing;
pub use writer::write_record;
