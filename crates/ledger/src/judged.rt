// A run that has passed the judgement, and what can be read of it.
ghost use Rattle.std.specs.Prelude.{◌≡◌};
ghost use Rattle.ledger.specs.Calls.{next_mark};
ghost use Rattle.ledger.specs.Judgement.{held, Judged};

use crate::entries::{Account, Mark};
use crate::marks::Event;
use posting::Opening;
use refusal::{Concern, Layer, Reason, Refusal};

// The figures, marks and accounts of a ledger as they were judged. No reference to the ledger itself: the check follows none to what
// holds lent memory.
#[derive(Clone, Copy)]
pub(crate) struct JudgedRun<'a> {
    pub(crate) opening: Opening,
    pub(crate) marks: &'a [Mark],
    pub(crate) accounts: &'a [Account],
    ghost judged: { Judged opening (held marks.now accounts.now) },
}

impl JudgedRun<'_> {
    // The mark that an event gives a period, if the run has the period and its mark allows it.
    pub(crate) fn next_mark(&self, period: u16, event: Event, who: Concern) -> Result<Mark, Refusal>
        ensures { result ≡ next_mark who self.now.opening self.now.marks.now period event }
    {
        let index = usize::from(period);
        if index >= self.marks.len() {
            return Err(who.refused(Reason::NoSuchPeriod, Layer::Run));
        }
        self.marks[index].advance(event, who)
    }
}
