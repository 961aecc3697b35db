// Why a call was refused, by which layer, and whom it concerns.
#![tactic(auto)]

mod concern;
mod layer;
mod reason;
mod refused;
mod told;

pub use concern::{Concern, NO_MEMBER, NO_PERIOD};
pub use layer::Layer;
pub use reason::Reason;
pub use refused::Refusal;
