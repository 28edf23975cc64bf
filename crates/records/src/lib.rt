// The records of the book: what accounts are, the calls that are handed in and their refusals, and the bill lines and
// trade confirmations that are written.
#![tactic(auto)]

mod account;
mod call;
mod component;
mod lines;
mod numbered;
mod refusals;

pub use account::{Election, Kind, Status};
pub use call::Call;
pub use component::Component;
pub use lines::{BillLine, Trade};
pub use refusals::outside;
