// The fixed card: its struct, whose prices keep the limit.
ghost use Rattle.cards.specs.Limits.{TiersWithinLimits};

use balancing::TierPrices;
use tariff::Month;

pub mod makes;

/// A card with four cashout prices that were fixed for its month.
#[derive(Clone, Copy)]
pub struct FixedCard {
    month: Month,
    tiers: TierPrices,
    ghost limited: { TiersWithinLimits tiers },
}
