// Makes a fixed card, and says what it means.
ghost use Rattle.std.specs.Prelude.{◌≡◌};
ghost use Rattle.tariff.specs.Faults.{answer};
ghost use Rattle.cards.specs.Fixed.{fixed_terms, fixed_card};
ghost use Rattle.cards.specs.Limits.{past_limit};
ghost use Rattle.std.proofs.Common.{rules};

use crate::card::Card;
use crate::fixed::FixedCard;
use crate::terms::Terms;
use balancing::TierPrices;
use tariff::{Fault, Month, Row};

const MOST_CARD_PRICE: u32 = 1_500_000_000;

// Four fields, each by its name: an array of the four would name them in the same words and then search it.
fn passes_limit(prices: &TierPrices) -> bool
    ensures { result ≡ past_limit prices.now }
{
    prices.one_over > MOST_CARD_PRICE
        || prices.one_under > MOST_CARD_PRICE
        || prices.two_over > MOST_CARD_PRICE
        || prices.two_under > MOST_CARD_PRICE
}

impl FixedCard {
    /// The card of a month with four cashout prices, in millionths of a dollar.
    // Year and number apart: what names no month is refused here, as row 1 of the card.
    pub fn new(year: u16, number: u8, tiers: TierPrices) -> Result<FixedCard, Fault>
        ensures { answer (λ c. fixed_terms c.month c.tiers) result ≡ fixed_card year number tiers }
    {
        let month = Month::new(year, number).ok_or(Fault::by_card(Row::Field))?;
        if passes_limit(&tiers) {
            return Err(Fault::by_card(Row::PastLimit));
        }
        Ok(FixedCard { month, tiers })
    }
}

impl Card for FixedCard {
    ghost meaning = { λ c. fixed_terms c.month c.tiers };

    ghost within_limits = { Prim.search rules };

    fn terms(&self) -> Terms
        ensures { result ≡ fixed_terms self.now.month self.now.tiers }
    {
        Terms {
            month: self.month,
            tiers: self.tiers,
            noncompliance: 1_000_000,
            credit: 5_000,
        }
    }
}
