// Posting a schedule or a reading: it goes to the book, unless the period is settled.
ghost use Rattle.ledger.specs.Calls.{Posts, PostsSchedule, PostsReading};
ghost use Rattle.ledger.specs.Judgement.{held_in};

use crate::entries::Ledger;
use crate::marks::Event;
use energy::Book;
use posting::MemberEnergy;
use refusal::{Concern, Layer, Reason, Refusal};

impl Ledger<'_> {
    // Posts to a line of the book.
    fn post_energy<B: Book>(
        &self,
        book: &mut B,
        energy: MemberEnergy,
        line: usize,
    ) -> Result<(), Refusal>
        ensures { Posts self.now.opening (held_in self.now) energy line result (B.Book.meaning book.old) (B.Book.meaning book.new) }
    {
        let period = usize::from(energy.period);
        let who = Concern::new(usize::from(energy.member), period);
        let judged = self.judge_with_book(book, who)?;
        if energy.member >= judged.opening.members {
            return Err(who.refused(Reason::NoSuchMember, Layer::Run));
        }
        judged.next_mark(energy.period, Event::Energy, who)?;
        book.post(line, period, energy.kwh)
    }

    // Enters what was scheduled for a member in a period. The calls have their published names, and one body.
    pub fn enter_schedule<B: Book>(&self, book: &mut B, energy: MemberEnergy) -> Result<(), Refusal>
        ensures { PostsSchedule self.now.opening (held_in self.now) energy result (B.Book.meaning book.old) (B.Book.meaning book.new) }
    {
        self.post_energy(book, energy, 2 * usize::from(energy.member))
    }

    // Enters what was read of a member's meter for a period.
    pub fn enter_reading<B: Book>(&self, book: &mut B, energy: MemberEnergy) -> Result<(), Refusal>
        ensures { PostsReading self.now.opening (held_in self.now) energy result (B.Book.meaning book.old) (B.Book.meaning book.new) }
    {
        self.post_energy(book, energy, 2 * usize::from(energy.member) + 1)
    }
}
