// What the book writes: bill lines and trade confirmations.
use crate::component::Component;
use tariff::{Charge, Month};

/// What an account is charged or paid: the account, the month of the card, and the charge (kind, quantity, card price and cents).
#[derive(Clone, Copy)]
pub struct BillLine {
    pub account: u8,
    pub month: Month,
    pub charge: Charge,
}

/// A trade that was accepted: the statement month, and from whose component to whose component how many Dth went.
#[derive(Clone, Copy)]
pub struct Trade {
    pub month: Month,
    pub giver: u8,
    pub gives: Component,
    pub taker: u8,
    pub takes: Component,
    pub quantity: u32,
}
