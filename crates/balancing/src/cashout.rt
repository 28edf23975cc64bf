// Cashout of the parts of an imbalance that are not kept.
ghost use Rattle.std.specs.Prelude.{◌≡◌, ◌^◌, ◌≤◌, ◌+ℤ◌, IfSome, unsigned_abs};
ghost use Rattle.balancing.specs.Cashouts.{tier_price, cents_of, cashout};

use crate::option::Parts;
use tariff::{BillKind, Cents, Charge};

/// The four cashout prices, in millionths of a dollar for each Dth.
#[derive(Clone, Copy)]
pub struct TierPrices {
    pub one_over: u32,
    pub one_under: u32,
    pub two_over: u32,
    pub two_under: u32,
}

/// The bill lines of a cashout, and what they add up to; a tier with no gas has no line.
#[derive(Clone, Copy)]
pub struct Cashout {
    pub tier_one: Option<Charge>,
    pub tier_two: Option<Charge>,
    pub total: Cents,
}

/// Gas delivered over the usage has one price, gas delivered under it another.
fn tier_price(quantity: i32, over: u32, under: u32) -> u32
    ensures { result ≡ tier_price quantity over under }
{
    if quantity < 0 { under } else { over }
}

/// The cents of a line that may be absent.
fn cents(line: &Option<Charge>) -> i128
    ensures { result ≡ cents_of line.now }
{
    line.map_or(0, |charge| charge.cents.count)
}

// Bounds in a `requires`, and no invariant of `Charge`: that would ask more of whoever makes one.
/// The cents of two lines together.
fn total(one: &Option<Charge>, two: &Option<Charge>) -> Cents
    requires one { IfSome one.now (λ c. unsigned_abs c.cents.count ≤ 2 ^ 82) }
    requires two { IfSome two.now (λ c. unsigned_abs c.cents.count ≤ 2 ^ 82) }
    ensures { result.count ≡ cents_of one.now +ℤ cents_of two.now }
{
    Cents {
        count: cents(one) + cents(two),
    }
}

impl TierPrices {
    /// The price of a quantity in Tier I.
    pub fn tier_one_price(&self, quantity: i32) -> u32
        ensures { result ≡ tier_price quantity self.now.one_over self.now.one_under }
    {
        tier_price(quantity, self.one_over, self.one_under)
    }

    /// The price of a quantity in Tier II.
    pub fn tier_two_price(&self, quantity: i32) -> u32
        ensures { result ≡ tier_price quantity self.now.two_over self.now.two_under }
    {
        tier_price(quantity, self.two_over, self.two_under)
    }

    /// The bill lines of both tiers: each tier's own part, at that tier's price.
    pub fn cash_out(&self, parts: &Parts) -> Cashout
        ensures { result ≡ cashout self.now parts.now }
    {
        let Parts {
            tier_one: one,
            tier_two: two,
            ..
        } = *parts;
        let tier_one = Charge::for_gas(BillKind::TierOne, i64::from(one), self.tier_one_price(one));
        let tier_two = Charge::for_gas(BillKind::TierTwo, i64::from(two), self.tier_two_price(two));
        let total = total(&tier_one, &tier_two);
        Cashout {
            tier_one,
            tier_two,
            total,
        }
    }
}
