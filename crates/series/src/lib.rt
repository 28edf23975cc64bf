// The published gas prices of one month, day by day.
#![tactic(auto)]

ghost use Rattle.std.specs.Prelude.{◌≡◌, ℕ, ◌^◌, ◌<◌, ◌≤◌, slice_index};
ghost use Rattle.tariff.specs.Months.{days_in};

mod bits;
mod entries;

use tariff::Month;

/// The largest price, in ten-thousandths of a dollar.
pub const MOST_PRICE: u32 = 10_000_000;

/// A month's prices in ten-thousandths of a dollar: bit `d - 1` of `published` says whether day `d` has an entry, and `prices[d - 1]` has
/// its price.
#[derive(Clone, Copy)]
pub struct PriceSeries {
    month: Month,
    days: u8,
    before: u32,
    // The project's rule: published days are the bits of one 32-bit number, counted and searched as such, beside their prices.
    published: u32,
    prices: [u32; 31],
    ghost dayed: { (days ≡ days_in month) × (28 ≤ days) × (days ≤ 31) × (published < 2 ^ days) },
    ghost priced: { (before ≤ 10000000) × ((k : ℕ) → slice_index prices k ≤ 10000000) },
}
