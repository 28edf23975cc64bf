// The tally: gas by account, counted from performed calls and their bill lines alone, without a page of the book.
#![tactic(auto)]

mod gas;
mod numbers;
mod offers;
mod tally;
mod uncounted;
mod writing;

pub use gas::cashed_out;
pub use tally::Tally;
pub use uncounted::Uncounted;
