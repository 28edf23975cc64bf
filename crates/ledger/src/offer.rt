// An offer between two accounts.
use records::Component;

/// An offer, which stands until it is accepted or the month is closed.
#[derive(Clone, Copy)]
pub struct Offer {
    pub giver: u8,
    pub gives: Component,
    pub taker: u8,
    pub takes: Component,
    pub quantity: u32,
    // A mark, and no `Option` of the rest: an offer that was accepted keeps its fields.
    pub stands: bool,
}
