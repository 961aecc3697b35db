// Posting a period's price, published or worked out from the system figures.
ghost use Rattle.pricing.specs.Prices.{price_of};
ghost use Rattle.ledger.specs.Calls.{Prices};
ghost use Rattle.ledger.specs.Judgement.{SameMemory, held_in};
ghost use Rattle.ledger.specs.Marks.{published as offer_of};

use crate::entries::Ledger;
use crate::marks::{Event, published};
use pricing::{SystemFigures, price_of};
use refusal::{Concern, Reason, Refusal};

impl Ledger<'_> {
    // Prices a period as offered.
    fn price_period(&mut self, period: u16, offer: Result<i32, Reason>) -> Result<(), Refusal>
        ensures does { Prices self.old.opening period offer result (held_in self.old) (held_in self.new) }
        ensures same { SameMemory self.old self.new }
    {
        let index = usize::from(period);
        let who = Concern::of_period(index);
        let judged = self.judge(who)?;
        let next = judged.next_mark(period, Event::Price(offer), who)?;
        self.marks[index] = next;
        Ok(())
    }

    // Enters a published price, in stotinki per MWh. The calls have their published names, and one body.
    pub fn enter_price(&mut self, period: u16, price: i32) -> Result<(), Refusal>
        ensures does { Prices self.old.opening period (offer_of price) result (held_in self.old) (held_in self.new) }
        ensures same { SameMemory self.old self.new }
    {
        self.price_period(period, published(price))
    }

    // Enters the price that system figures give.
    pub fn enter_figures(&mut self, period: u16, figures: &SystemFigures) -> Result<(), Refusal>
        ensures does { Prices self.old.opening period (price_of figures.now) result (held_in self.old) (held_in self.new) }
        ensures same { SameMemory self.old self.new }
    {
        self.price_period(period, price_of(figures))
    }
}
