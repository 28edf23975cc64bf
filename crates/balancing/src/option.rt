// Balancing options: how a statement's imbalance is split, and what a day has above its limits.
ghost use Rattle.std.specs.Prelude.{◌≡◌, ◌-ℤ◌};
ghost use Rattle.balancing.specs.Rules.{Rules, Laws, Part, held_within, order_flagged};

use tariff::{Fault, Row};

/// A month's statement: usage and monthly quantity, and the imbalance that is left (Dth).
#[derive(Clone, Copy)]
pub struct Statement {
    pub usage: u32,
    pub monthly_quantity: u32,
    pub imbalance: i32,
}

/// A gas day as an option measures it (Dth): what was received and used, whether an order was in effect, and with them the monthly
/// quantity and the imbalance accumulated by the day's end.
#[derive(Clone, Copy)]
pub struct GasDay {
    pub receipts: u32,
    pub usage: u32,
    pub order: FlowOrder,
    pub monthly_quantity: u32,
    pub accumulated: i32,
}

/// The parts of a statement's imbalance (Dth): what is carried on, and what is cashed out in each tier.
#[derive(Clone, Copy)]
pub struct Parts {
    pub kept: i32,
    pub tier_one: i32,
    pub tier_two: i32,
}

/// What a day has above the daily and above the accumulated limit (Dth).
#[derive(Clone, Copy)]
pub struct Excess {
    pub daily: u32,
    pub accumulated: u32,
}

/// Whether an operational or emergency flow order is in effect on a day.
#[derive(Clone, Copy)]
pub enum FlowOrder {
    Absent,
    InEffect,
}

impl TryFrom<u8> for FlowOrder {
    type Error = Fault;

    ghost try_from_gives = { λ flag r. r ≡ order_flagged flag };

    fn try_from(flag: u8) -> Result<FlowOrder, Fault> {
        match flag {
            0 => Ok(FlowOrder::Absent),
            1 => Ok(FlowOrder::InEffect),
            _ => Err(Fault::by_book(Row::Field, None)),
        }
    }
}

/// A balancing option. It never refuses, and asking it alters nothing.
// `letter` and `earns` beside the constants: they speak of a value, and a law that ties a value's meaning to constants of its type would ask more
// of an option than it was asked.
pub trait BalancingOption {
    /// The letter by which statements name the option.
    const MARK: char;
    /// Whether its accounts earn the credit.
    const EARNS_CREDIT: bool;

    ghost rules: { Self → Rules };

    /// `MARK`, of a value, as its meaning says.
    fn letter(&self) -> char
        ensures { result ≡ (rules self.now).mark };

    /// `EARNS_CREDIT`, of a value, as its meaning says.
    fn earns(&self) -> bool
        ensures { result ≡ (rules self.now).earns_credit };

    /// The parts of a statement's imbalance.
    fn split(&self, statement: &Statement) -> Parts
        ensures { result ≡ (rules self.now).split statement.now.usage statement.now.monthly_quantity statement.now.imbalance };

    /// The excesses of a day.
    fn excess(&self, day: &GasDay) -> Excess
        ensures { result ≡ (rules self.now).excess day.now.receipts day.now.usage day.now.order day.now.monthly_quantity day.now.accumulated };

    ghost sound: { (x : Self) → Laws (rules x) };
}

/// An imbalance held within `most` of zero.
pub(crate) fn held_within(most: u32, imbalance: i32) -> i32
    ensures { result ≡ held_within most imbalance }
{
    let most = i64::from(most);
    i64::from(imbalance).clamp(-most, most) as i32
}

/// What is left of a quantity without a part of it.
pub(crate) fn rest(whole: i32, part: i32) -> i32
    requires { Part part whole }
    ensures { result ≡ whole -ℤ part }
{
    whole - part
}
