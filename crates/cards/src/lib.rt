// Price cards: what a month's gas costs, for cashouts, noncompliance and the credit.
#![tactic(auto)]

mod at_hand;
mod card;
mod fixed;
mod index;
mod terms;

pub use at_hand::AtHand;
pub use card::Card;
pub use fixed::FixedCard;
pub use index::IndexCard;
pub use index::published::Published;
pub use index::working::{Point, Working};
pub use terms::Terms;
