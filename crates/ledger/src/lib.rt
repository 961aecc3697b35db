// The ledger of a run: what its periods and members stand at, and the calls that read and change it.
#![tactic(auto)]

mod booking;
mod drawing;
mod energies;
mod entries;
mod invoices;
mod judged;
mod judgement;
mod marks;
mod openings;
mod positions;
mod prices;
mod turning;

pub use entries::{Account, Ledger, Mark};
