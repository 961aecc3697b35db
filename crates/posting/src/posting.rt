// What is posted to a run, one kind for each call of it.
use pricing::SystemFigures;

// The figures with which a run is opened.
#[derive(Clone, Copy, PartialEq, Eq, Debug)]
pub struct Opening {
    pub members: u8,
    pub days: u8,
    // bit i: member i is a consumer
    pub consumers: u64,
    // in stotinki per MWh
    pub internal_price: i32,
}

// What was scheduled for a member in a period, or read of his meter.
#[derive(Clone, Copy, PartialEq, Eq, Debug)]
pub struct MemberEnergy {
    pub member: u8,
    pub period: u16,
    pub kwh: u32,
}

#[derive(Clone, Copy, PartialEq, Eq, Debug)]
pub enum Posting {
    Opening(Opening),
    Schedule(MemberEnergy),
    Reading(MemberEnergy),
    // in stotinki per MWh
    Price { period: u16, price: i32 },
    Figures { period: u16, figures: SystemFigures },
    Settle { period: u16 },
    Reopen { period: u16 },
}
