// One account's page, and what each call does to it.
#![tactic(auto)]

mod adjusting;
mod billing;
mod closing;
mod folding;
mod limits;
mod options;
mod page;
mod posting;
mod setting;
mod settling;
mod trading;

pub use closing::Credits;
pub use limits::past_limit;
pub use options::Options;
pub use page::{Basis, Gas, Page, Posted};
