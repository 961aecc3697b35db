// Energy books: what every book of schedules and readings means, its laws, and the layers over any book.
#![tactic(auto)]

mod book;
mod bookings;
mod ceilings;
mod limits;
mod seals;

pub use book::Book;
pub use bookings::{Booking, post_all, post_to_both};
pub use ceilings::Ceilings;
pub use limits::{MOST_DAYS, MOST_LINES, MOST_PERIODS, PERIODS_PER_DAY};
pub use seals::Seals;
