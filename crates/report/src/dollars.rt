// Prices and amounts, printed in dollars.
use std::fmt;

// Three variants, and no one width for all: each kind of amount has its own, and the published one its own decimals.
/// An amount in units of its last decimal, printed in dollars.
#[derive(Clone, Copy)]
pub enum Dollars {
    /// A published price, in ten-thousandths.
    Published(u64),
    /// A price on a card, in millionths.
    OnCard(u32),
    /// An exact amount, in ten-thousandths of a cent, which are millionths of a dollar.
    Exact(i128),
}

/// Writes an amount in millionths of a dollar, with a hyphen before one below zero.
fn write_millionths<W: fmt::Write>(f: &mut fmt::Formatter<W>, amount: i128) -> fmt::Result {
    let sign = if amount < 0 { "-" } else { "" };
    let whole = amount.unsigned_abs() / 1_000_000;
    let rest = amount.unsigned_abs() % 1_000_000;
    write!(f, "{sign}{whole}.{rest:06}")
}

impl fmt::Display for Dollars {
    fn fmt<W: fmt::Write>(&self, f: &mut fmt::Formatter<W>) -> fmt::Result {
        match *self {
            Dollars::Published(price) => {
                let whole = price / 10_000;
                let rest = price % 10_000;
                write!(f, "{whole}.{rest:04}")
            }
            Dollars::OnCard(price) => write_millionths(f, i128::from(price)),
            Dollars::Exact(amount) => write_millionths(f, amount),
        }
    }
}
