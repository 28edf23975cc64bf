// What the places of a register hold before anything is written.
use records::{BillLine, Component, Trade};
use tariff::{BillKind, Charge, Month};

// Two functions, and no `Default`, which only `records` could write, and which would have no month.

/// A bill line of nothing.
pub fn blank_line(month: Month) -> BillLine {
    BillLine {
        account: 0,
        month,
        charge: Charge::new(BillKind::TierOne, 0, 0),
    }
}

/// A trade of nothing.
pub fn blank_trade(month: Month) -> Trade {
    Trade {
        month,
        giver: 0,
        gives: Component::Statement,
        taker: 0,
        takes: Component::Statement,
        quantity: 0,
    }
}
