// What happens to a period, and what its mark makes of it.
ghost use Rattle.std.specs.Prelude.{◌≡◌};
ghost use Rattle.ledger.specs.Marks.{advanced, event_of, price_at, priced_by, published as offer_of};

use crate::entries::Mark;
use pricing::PRICE_LIMIT;
use refusal::{Concern, Layer, Reason, Refusal};

#[derive(Clone, Copy)]
pub(crate) enum Event {
    // a schedule or a reading is posted
    Energy,
    // a price is offered, or the reason why there is none
    Price(Result<i32, Reason>),
    Settle,
    Reopen,
}

// Settling and reopening turn a period over: the same amounts are added to the accounts or taken off them.
#[derive(Clone, Copy)]
pub(crate) enum Turn {
    Settling,
    Reopening,
}

impl From<Turn> for Event {
    ghost from_gives = { λ turn event. event ≡ event_of turn };

    fn from(turn: Turn) -> Event {
        match turn {
            Turn::Settling => Event::Settle,
            Turn::Reopening => Event::Reopen,
        }
    }
}

// A published price, if it is within the limit.
pub(crate) fn published(price: i32) -> Result<i32, Reason>
    ensures { result ≡ offer_of price }
{
    if price.unsigned_abs() > PRICE_LIMIT {
        return Err(Reason::FigureOutOfRange);
    }
    Ok(price)
}

fn priced(offer: Result<i32, Reason>, who: Concern) -> Result<Mark, Refusal>
    ensures { result ≡ priced_by who offer }
{
    let price = offer.map_err(|reason| who.refused(reason, Layer::Run))?;
    Ok(Mark::Priced(price))
}

impl Mark {
    // The price of a period, in stotinki per MWh.
    pub(crate) fn price(self) -> Option<i32>
        ensures { result ≡ price_at self }
    {
        match self {
            Mark::Unpriced => None,
            Mark::Priced(price) | Mark::Settled(price) => Some(price),
        }
    }

    // The mark that an event gives a period.
    pub(crate) fn advance(self, event: Event, who: Concern) -> Result<Mark, Refusal>
        ensures { result ≡ advanced who self event }
    {
        let refused = |reason| Err(who.refused(reason, Layer::Run));
        match (self, event) {
            (Mark::Unpriced, Event::Energy) => Ok(Mark::Unpriced),
            (Mark::Priced(price), Event::Energy) => Ok(Mark::Priced(price)),
            (Mark::Settled(_), Event::Energy) => refused(Reason::PeriodSettled),
            (Mark::Unpriced, Event::Price(offer)) => priced(offer, who),
            (Mark::Priced(_), Event::Price(offer)) => priced(offer, who),
            (Mark::Settled(_), Event::Price(_)) => refused(Reason::PeriodSettled),
            (Mark::Unpriced, Event::Settle) => refused(Reason::NoPrice),
            (Mark::Priced(price), Event::Settle) => Ok(Mark::Settled(price)),
            (Mark::Settled(_), Event::Settle) => refused(Reason::PeriodSettled),
            (Mark::Unpriced, Event::Reopen) => refused(Reason::PeriodNotSettled),
            (Mark::Priced(_), Event::Reopen) => refused(Reason::PeriodNotSettled),
            (Mark::Settled(price), Event::Reopen) => Ok(Mark::Priced(price)),
        }
    }
}
