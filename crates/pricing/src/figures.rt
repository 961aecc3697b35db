// The system figures of a quarter of an hour, as the transmission operator publishes them.
ghost use Rattle.std.specs.Prelude.{◌≡◌};
ghost use Rattle.pricing.specs.Limits.{offer_in_range, bid_in_range, activation_in_range, activations_in_range, both_in_range, offers_in_range, figures_in_range};

// A system imbalance beyond this is none of one quarter of an hour.
pub const IMBALANCE_LIMIT_KWH: u32 = 500_000;

// So is an activation of one kind of reserve.
pub const ACTIVATION_LIMIT_KWH: u32 = 1_000_000;

// The largest size of an index, a bid or an activation's price, in stotinki per MWh.
pub const OFFER_LIMIT: u32 = 3_000_000;

// The largest size of a price, given or worked out, in stotinki per MWh.
pub const PRICE_LIMIT: u32 = 30_000_000;

// Balancing energy that was activated, and its price in stotinki per MWh.
#[derive(Clone, Copy, PartialEq, Eq, Debug, Default)]
pub struct Activation {
    pub kwh: u32,
    pub price: i32,
}

// What was activated in one direction, by kind of reserve.
#[derive(Clone, Copy, PartialEq, Eq, Debug, Default)]
pub struct Activations {
    pub automatic: Activation,
    pub manual: Activation,
    pub replacement: Activation,
}

#[derive(Clone, Copy, PartialEq, Eq, Debug)]
pub struct SystemFigures {
    // above zero the system had a surplus, below a shortage
    pub imbalance_kwh: i32,
    pub downward: Activations,
    pub upward: Activations,
    // the best bid of the automatic reserve, for where nothing was activated
    pub downward_bid: Option<i32>,
    pub upward_bid: Option<i32>,
    // the index of intraday prices
    pub index: i32,
}

fn offer_in_range(price: i32) -> bool
    ensures { result ≡ offer_in_range price }
{
    price.unsigned_abs() <= OFFER_LIMIT
}

fn bid_in_range(bid: Option<i32>) -> bool
    ensures { result ≡ bid_in_range bid }
{
    bid.is_none_or(|price| offer_in_range(price))
}

impl Activation {
    fn in_range(&self) -> bool
        ensures { result ≡ activation_in_range self.now }
    {
        self.kwh <= ACTIVATION_LIMIT_KWH && offer_in_range(self.price)
    }
}

impl Activations {
    fn in_range(&self) -> bool
        ensures { result ≡ activations_in_range self.now }
    {
        self.automatic.in_range() && self.manual.in_range() && self.replacement.in_range()
    }
}

impl SystemFigures {
    fn offers_in_range(&self) -> bool
        ensures { result ≡ offers_in_range self.now }
    {
        bid_in_range(self.downward_bid)
            && bid_in_range(self.upward_bid)
            && offer_in_range(self.index)
    }

    fn both_in_range(&self) -> bool
        ensures { result ≡ both_in_range self.now }
    {
        self.downward.in_range() && self.upward.in_range()
    }

    pub(crate) fn in_range(&self) -> bool
        ensures { result ≡ figures_in_range self.now }
    {
        self.imbalance_kwh.unsigned_abs() <= IMBALANCE_LIMIT_KWH
            && self.both_in_range()
            && self.offers_in_range()
    }
}
