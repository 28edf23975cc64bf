// The table of pages, the offers, and the ten calls on them.
#![tactic(auto)]

mod accepting;
mod accounts;
mod amounts;
mod closing;
mod folding;
mod ledger;
mod offer;
mod offering;

pub use ledger::Ledger;
pub use offer::Offer;
