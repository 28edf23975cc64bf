// The balancing book: any call on one ledger, with two balancing options.
#![tactic(auto)]

mod agents;
mod perform;

pub use agents::Book;
