// Lists of postings to any book.
ghost use Rattle.std.specs.Prelude.{◌≡◌, length};
ghost use Rattle.energy.specs.Bookings.{after_all, accepted, KeepsTheLast, Alike};

use crate::book::Book;

#[derive(Clone, Copy)]
pub struct Booking {
    pub line: usize,
    pub period: usize,
    pub kwh: u32,
}

// Posts a list in its order, whatever is refused of it, and gives how many were accepted.
pub fn post_all<B: Book>(book: &mut B, bookings: &[Booking]) -> usize
    ensures count { result ≡ length (accepted (B.Book.meaning book.old) bookings.now) }
    ensures after { B.Book.meaning book.new ≡ after_all (B.Book.meaning book.old) bookings.now }
    ensures last { KeepsTheLast (B.Book.meaning book.old) (accepted (B.Book.meaning book.old) bookings.now) (B.Book.meaning book.new) }
{
    let mut count = 0;
    for booking in bookings {
        if book.post(booking.line, booking.period, booking.kwh).is_ok() {
            count += 1;
        }
    }
    count
}

// Posts the same list to two books of any two kinds, and gives how many each accepted.
pub fn post_to_both<B: Book, C: Book>(
    one: &mut B,
    other: &mut C,
    bookings: &[Booking],
) -> (usize, usize)
    ensures counts { result ≡ (length (accepted (B.Book.meaning one.old) bookings.now), length (accepted (C.Book.meaning other.old) bookings.now)) }
    ensures one_after { B.Book.meaning one.new ≡ after_all (B.Book.meaning one.old) bookings.now }
    ensures other_after { C.Book.meaning other.new ≡ after_all (C.Book.meaning other.old) bookings.now }
    ensures alike { B.Book.meaning one.old ≡ C.Book.meaning other.old → Alike (B.Book.meaning one.old) (C.Book.meaning other.old) (B.Book.meaning one.new) (C.Book.meaning other.new) bookings.now }
{
    (post_all(one, bookings), post_all(other, bookings))
}
