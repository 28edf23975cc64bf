// A card's month and its six prices.
use balancing::TierPrices;
use tariff::Month;

/// A month, the four cashout prices, and what noncompliance costs and the credit pays for each Dth, in millionths of a dollar.
#[derive(Clone, Copy)]
pub struct Terms {
    pub month: Month,
    pub tiers: TierPrices,
    pub noncompliance: u32,
    pub credit: u32,
}
