// How a balancing group nets its members' surplus against their shortage.
#![tactic(auto)]

mod apportion;
mod by_order;
mod by_proportion;
mod layers;
mod netting;
mod own_account;
mod rule;
mod side;

pub use by_order::{ByOrder, InOrder};
pub use by_proportion::{ByProportion, Proportional, share_by_weight};
pub use layers::{FirstThen, OnlyAmong};
pub use netting::Netting;
pub use own_account::OwnAccount;
pub use rule::{MOST_MEMBERS, REST_LIMIT_KWH, SharingRule};
pub use side::contains;
