// What a ledger holds: the figures of its run, a mark for each period and an account for each member.
use posting::Opening;

// How far a period has come; a price is in stotinki per MWh.
#[derive(Clone, Copy, Default)]
pub enum Mark {
    #[default]
    Unpriced,
    Priced(i32),
    Settled(i32),
}

// What the settled periods have brought a member.
#[derive(Clone, Copy, Default)]
pub struct Account {
    pub inside_kwh: i64,
    pub outside_kwh: i64,
    // in thousandths of a stotinka; below zero the member pays
    pub money: i64,
}

// The figures that a run is opened with, and memory that the host lends for as long as the run lasts.
#[derive(Drop)]
pub struct Ledger<'a> {
    pub opening: Opening,
    pub marks: &'a mut [Mark],
    pub accounts: &'a mut [Account],
}
