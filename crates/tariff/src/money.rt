// Money: exact amounts in ten-thousandths of a cent, and billed whole cents.
ghost use Rattle.std.specs.Prelude.{◌≡◌, ℕ, ◌^◌, ◌≤◌, ℤ, pos, ◌*ℤ◌, Some, unsigned_abs};
ghost use Rattle.tariff.specs.Money.{exact, nearest, Within, sign_text, cents_text};

use std::fmt;

/// Whole cents; positive cents are owed by the agent.
#[derive(Clone, Copy)]
pub struct Cents {
    pub count: i128,
}

// The bound is a clause, here and where amounts and bills are made of it: `i128` has no invariant, and one of a public type would ask
// more of whoever makes a value of it.
/// What a signed quantity (Dth) comes to at a card price (millionths of a dollar for each Dth), in ten-thousandths of a cent.
pub fn exact_amount(quantity: i64, price: u32) -> i128
    ensures value { result ≡ exact quantity price }
    ensures bound { unsigned_abs result ≤ 2 ^ 95 }
{
    i128::from(quantity) * i128::from(price)
}

/// The nearest whole cent of an amount in ten-thousandths of a cent, a half going away from zero.
pub fn billed_cents(amount: i128) -> Cents
    ensures value { result.count ≡ nearest amount }
    ensures half_a_cent { Within 5000 (result.count *ℤ pos 10000) amount }
{
    let cents = (amount.unsigned_abs() + 5000) / 10000;
    let cents = cents as i128;
    Cents {
        count: if amount < 0 { -cents } else { cents },
    }
}

// A word for a truth value, which has no `Display` of its own.
/// A hyphen before what is paid to the agent.
fn sign(count: i128) -> &'static str
    ensures { result.now ≡ sign_text count }
{
    if count < 0 { "-" } else { "" }
}

impl fmt::Display for Cents {
    ghost output = { λ c. Some (cents_text c.count) };

    /// In dollars, as `-3.77`.
    fn fmt<W: fmt::Write>(&self, f: &mut fmt::Formatter<W>) -> fmt::Result {
        let sign = sign(self.count);
        let cents = self.count.unsigned_abs();
        let dollars = cents / 100;
        let rest = cents % 100;
        write!(f, "{sign}{dollars}.{rest:02}")
    }
}
