// Weighted lows and highs, Citygate's dollars, and the prices that follow.
ghost use Rattle.std.specs.Prelude.{◌≡◌, ◌+◌, ◌*◌, ◌<◌, ◌≤◌};
ghost use Rattle.cards.specs.Index.{nearest_up, weighted, dollars, tiers_of};
ghost use Rattle.cards.specs.Limits.{TiersWithinLimits};

use crate::index::kept::Kept;
use balancing::TierPrices;

// The bounds stand in the clauses: each is of another product, and no two functions pass on the same number.
/// A sum of ten prices times a supply amount.
#[tactic(auto, using(crate::proofs::Small::product_small))]
fn share(sum: u64, supply: u32) -> u64
    requires { (sum ≤ 100000000) × (supply ≤ 100000000) }
    ensures value { result ≡ sum * supply }
    ensures bound { result ≤ 100000000 * supply }
{
    sum * u64::from(supply)
}

/// The whole number nearest to `whole / parts`, a half up.
#[tactic(auto, using(crate::proofs::Small::average_small))]
fn nearest(whole: u64, parts: u64) -> u64
    requires parts { (0 < parts) × (parts ≤ 2000000000) }
    requires whole { whole ≤ 10000000 * parts }
    ensures value { result ≡ nearest_up whole parts }
    ensures bound { result ≤ 10000000 }
{
    (2 * whole + parts) / (2 * parts)
}

/// Sums of ten prices at Malin and Topock, weighed by the supply amounts, as one price.
pub(crate) fn weigh(malin: u64, malin_supply: u32, topock: u64, topock_supply: u32) -> u64
    requires sums { (malin ≤ 100000000) × (topock ≤ 100000000) }
    requires supply { (malin_supply ≤ 100000000) × (topock_supply ≤ 100000000) × (0 < malin_supply + topock_supply) }
    ensures value { result ≡ weighted malin malin_supply topock topock_supply }
    ensures bound { result ≤ 10000000 }
{
    let whole = share(malin, malin_supply) + share(topock, topock_supply);
    nearest(
        whole,
        10 * (u64::from(malin_supply) + u64::from(topock_supply)),
    )
}

/// Whole dollars of a price, rounded up.
pub(crate) fn whole_dollars(price: u32) -> u32
    requires { price ≤ 10000000 }
    ensures value { result ≡ dollars price }
    ensures bound { result ≤ 1000 }
{
    price.div_ceil(10_000)
}

/// The four cashout prices.
pub(crate) fn tier_prices(bid_week: u32, kept: &Kept) -> TierPrices
    requires { bid_week ≤ 10000000 }
    ensures value { result ≡ tiers_of bid_week kept.now.working }
    ensures limits { TiersWithinLimits result }
{
    let working = &kept.working;
    let lower = u64::from(bid_week).min(working.weighted_low);
    let higher = u64::from(bid_week).max(working.weighted_high);
    TierPrices {
        one_over: (75 * lower) as u32,
        one_under: (125 * higher) as u32,
        two_over: 25 * working.malin.smallest.min(working.topock.smallest),
        two_under: 75 * working.malin.largest.max(working.topock.largest),
    }
}
