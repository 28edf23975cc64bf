// Balancing options under Schedule G-BAL, and the cashout of what they do not keep.
#![tactic(auto)]

mod cashout;
mod monthly;
mod option;
mod self_balancing;

pub use cashout::{Cashout, TierPrices};
pub use monthly::{Monthly, Tolerance};
pub use option::{BalancingOption, Excess, FlowOrder, GasDay, Parts, Statement};
pub use self_balancing::SelfBalancing;
