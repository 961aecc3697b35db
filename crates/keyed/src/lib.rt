// A list of entries under keys in memory that is handed over, for every kind of key and content.
#![tactic(auto)]

mod entry;
mod key;
mod list;

pub use entry::Entry;
pub use key::Key;
pub use list::{KeyedList, MOST_ENTRIES, fits};
