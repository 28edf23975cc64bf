// What is billed for a quantity of gas.
ghost use Rattle.std.specs.Prelude.{◌≡◌, ◌^◌, ◌≤◌, Some, IfSome, unsigned_abs};
ghost use Rattle.tariff.specs.Bills.{kind_number, kind_text, KindNumbered, amount_due, charge, tier_line};

use crate::fault::NoSuch;
use crate::money::{Cents, billed_cents, exact_amount};
use std::fmt;

/// What a bill line is for.
#[derive(Clone, Copy)]
pub enum BillKind {
    TierOne = 1,
    TierTwo = 2,
    DailyExcess = 3,
    AccumulatedExcess = 4,
    Credit = 5,
}

impl BillKind {
    pub fn number(&self) -> u8
        ensures { result ≡ kind_number self.now }
    {
        *self as u8
    }

    /// What the agent owes for a quantity at a card price, in ten-thousandths of a cent.
    // The bound stands in a clause: a number of 128 bits has no invariant to hold it.
    pub fn amount_due(&self, quantity: i64, price: u32) -> i128
        ensures value { result ≡ amount_due self.now quantity price }
        ensures bound { unsigned_abs result ≤ 2 ^ 95 }
    {
        let amount = exact_amount(quantity, price);
        match self {
            BillKind::TierOne | BillKind::TierTwo | BillKind::Credit => -amount,
            BillKind::DailyExcess | BillKind::AccumulatedExcess => amount,
        }
    }
}

impl fmt::Display for BillKind {
    ghost output = { λ k. Some (kind_text k) };

    fn fmt<W: fmt::Write>(&self, f: &mut fmt::Formatter<W>) -> fmt::Result {
        f.pad(match self {
            BillKind::TierOne => "Tier I",
            BillKind::TierTwo => "Tier II",
            BillKind::DailyExcess => "daily excess",
            BillKind::AccumulatedExcess => "accumulated excess",
            BillKind::Credit => "credit",
        })
    }
}

impl TryFrom<u8> for BillKind {
    type Error = NoSuch;

    ghost try_from_gives = { KindNumbered };

    fn try_from(number: u8) -> Result<BillKind, NoSuch> {
        match number {
            1 => Ok(BillKind::TierOne),
            2 => Ok(BillKind::TierTwo),
            3 => Ok(BillKind::DailyExcess),
            4 => Ok(BillKind::AccumulatedExcess),
            5 => Ok(BillKind::Credit),
            _ => Err(NoSuch),
        }
    }
}

/// A quantity billed at a card price.
#[derive(Clone, Copy)]
pub struct Charge {
    pub kind: BillKind,
    pub quantity: i64,
    pub price: u32,
    pub cents: Cents,
}

// The bounds stand in the clauses: each is of another number, and the fields of a charge are its caller's to give.
impl Charge {
    pub fn new(kind: BillKind, quantity: i64, price: u32) -> Charge
        ensures value { result ≡ charge kind quantity price }
        ensures bound { unsigned_abs result.cents.count ≤ 2 ^ 82 }
    {
        Charge {
            kind,
            quantity,
            price,
            cents: billed_cents(kind.amount_due(quantity, price)),
        }
    }

    /// What is billed for a quantity, if there is any gas.
    pub fn for_gas(kind: BillKind, quantity: i64, price: u32) -> Option<Charge>
        ensures value { result ≡ tier_line kind quantity price }
        ensures bound { IfSome result (λ c. unsigned_abs c.cents.count ≤ 2 ^ 82) }
    {
        (quantity != 0).then(|| Charge::new(kind, quantity, price))
    }
}
