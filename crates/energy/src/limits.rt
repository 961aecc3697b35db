// The limits of a book.

// Two lines for each of 64 members: his schedule and his reading.
pub const MOST_LINES: usize = 128;

// Quarters of an hour.
pub const PERIODS_PER_DAY: usize = 96;

pub const MOST_DAYS: usize = 31;

pub const MOST_PERIODS: usize = MOST_DAYS * PERIODS_PER_DAY;
