// What became of calls on a book, in words and tables.
#![tactic(auto)]

mod answer;
mod bills;
mod blank;
mod dollars;
mod entry;
mod gas;
mod journal;
mod money;
mod names;
mod pages;
mod sums;
mod trades;
mod words;

pub use answer::Answer;
pub use bills::print_bills;
pub use blank::{blank_line, blank_trade};
pub use dollars::Dollars;
pub use entry::print_entry;
pub use gas::print_gas;
pub use journal::{Entry, Journal};
pub use money::print_money;
pub use pages::print_pages;
pub use sums::Sums;
pub use trades::print_trades;
pub use words::InWords;
