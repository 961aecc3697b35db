// One run of a balancing group: it is opened, schedules, readings and prices are posted, periods are settled and reopened,
// and every account adds up.
#![tactic(auto)]

mod bills;
mod opening;
mod postings;
mod settling;
mod theorem;

pub use bills::{draw_sheet, invoice};
pub use ledger::{Account, Ledger, Mark};
pub use opening::open;
pub use postings::{post_figures, post_price, post_reading, post_schedule};
pub use settling::{reopen, settle};
pub use theorem::accounts_add_up;
