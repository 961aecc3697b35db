// What a member's quarter of an hour comes to: his imbalance, and what he is paid for it.
#![tactic(auto)]

mod charge;
mod imbalance;

pub use charge::{INTERNAL_PRICE_LIMIT, Prices};
pub use imbalance::{ENERGY_LIMIT_KWH, Position, Role};
