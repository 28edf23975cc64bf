// The limits on quantities.
ghost use Rattle.std.specs.Prelude.{◌≡◌, ◌+◌, ◌≤◌, ◌+ℤ◌, unsigned_abs, if◌then◌else◌, Some, None, nat_lt};
ghost use Rattle.page.specs.Limits.{past, past_together};

/// The most of a day's receipts or usage, of a month's usage or monthly quantity, and of a sum of excesses (Dth).
pub(crate) const MOST_A_DAY: u32 = 3_000_000;

pub(crate) const MOST_A_MONTH: u32 = 100_000_000;

pub(crate) const MOST_EXCESS: u32 = 3_100_000_000;

// Public, with a promise of its own; `within` is the form that the calls use.
/// Whether a quantity is further from 0 than a hundred million Dth.
pub fn past_limit(quantity: i64) -> bool
    ensures { result ≡ past quantity }
{
    quantity.unsigned_abs() > 100_000_000
}

/// A quantity that keeps the limit.
pub(crate) fn within(quantity: i64) -> Option<i32>
    ensures { result ≡ (if past quantity then None else Some quantity) }
{
    if past_limit(quantity) {
        return None;
    }
    Some(quantity as i32)
}

// By reference: by value, the proof of a page's five quantities together does not close.
/// Two quantities together.
pub(crate) fn both(one: &i32, other: &i32) -> i64
    ensures value { result ≡ one.now +ℤ other.now }
    ensures bound { unsigned_abs result ≤ 4294967296 }
{
    i64::from(*one) + i64::from(*other)
}

/// What is held with a quantity, where both keep the limit.
pub(crate) fn together(held: i32, quantity: i64) -> Option<i32>
    ensures { result ≡ (if past_together held quantity then None else Some (held +ℤ quantity)) }
{
    let quantity = within(quantity)?;
    within(i64::from(held) + i64::from(quantity))
}

/// A number that keeps its most.
pub(crate) fn at_most(most: u32, number: u64) -> Option<u32>
    ensures { result ≡ (if nat_lt most number then None else Some number) }
{
    if number > u64::from(most) {
        return None;
    }
    Some(number as u32)
}

/// The sum of two numbers that keeps its most.
pub(crate) fn sum(most: u32, held: u32, more: u32) -> Option<u32>
    ensures { result ≡ (if nat_lt most (held + more) then None else Some (held + more)) }
{
    at_most(most, u64::from(held) + u64::from(more))
}
