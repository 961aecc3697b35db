// The price of a quarter of an hour, derived from the published system figures.
#![tactic(auto)]

mod derivation;
mod figures;
mod fraction;
mod price;
mod stages;

pub use derivation::{Base, Candidates, Derivation, Origin, Side, Stage};
pub use figures::{
    ACTIVATION_LIMIT_KWH, Activation, Activations, IMBALANCE_LIMIT_KWH, OFFER_LIMIT, PRICE_LIMIT,
    SystemFigures,
};
pub use fraction::Fraction;
pub use price::{derive, price_of};
