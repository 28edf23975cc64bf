// The tariff's own arithmetic: months, refusals, and money.
#![tactic(auto)]

mod bill;
mod fault;
mod money;
mod month;

pub use bill::{BillKind, Charge};
pub use fault::{Fault, Layer, NO_ACCOUNT, NoSuch, Row};
pub use money::{Cents, billed_cents, exact_amount};
pub use month::Month;
