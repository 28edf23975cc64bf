// Makes an index card, and says what it means.
ghost use Rattle.std.specs.Prelude.{◌≡◌, false};
ghost use Rattle.tariff.specs.Faults.{answer};
ghost use Rattle.cards.specs.Index.{one_month, past_limits, no_supply, working_of, index_terms, index_card};
ghost use Rattle.std.proofs.Common.{rules};

use crate::card::Card;
use crate::index::IndexCard;
use crate::index::kept::Kept;
use crate::index::points::{Doubles, highest_price};
use crate::index::published::Published;
use crate::index::weights::{tier_prices, weigh, whole_dollars};
use crate::index::working::Working;
use crate::terms::Terms;
use tariff::{Fault, Row};

impl Published {
    fn of_one_month(&self) -> bool
        ensures { result ≡ one_month self.now }
    {
        let month = self.citygate.month();
        self.malin_a.month() == month
            && self.malin_b.month() == month
            && self.topock_a.month() == month
            && self.topock_b.month() == month
    }

    // Two limits for two kinds of number: no one search goes over all four.
    fn passes_limits(&self) -> bool
        ensures { result ≡ past_limits self.now }
    {
        self.bid_week > 10_000_000
            || self.citygate_index > 10_000_000
            || self.malin_supply > 100_000_000
            || self.topock_supply > 100_000_000
    }

    fn has_no_supply(&self) -> bool
        ensures { result ≡ no_supply self.now }
    {
        self.malin_supply == 0 && self.topock_supply == 0
    }

    // It asks for what `new` has tested: a working that refused would tell part of the table of refusals in a second place.
    fn working(&self) -> Kept
        requires limits { past_limits self.now ≡ false }
        requires supply { no_supply self.now ≡ false }
        ensures { result.working ≡ working_of self.now }
    {
        let malin = Doubles::of(&self.malin_a, &self.malin_b).point();
        let topock = Doubles::of(&self.topock_a, &self.topock_b).point();
        let citygate_high = highest_price(&self.citygate).max(self.citygate_index);
        let working = Working {
            malin,
            topock,
            weighted_low: weigh(malin.low, self.malin_supply, topock.low, self.topock_supply),
            weighted_high: weigh(
                malin.high,
                self.malin_supply,
                topock.high,
                self.topock_supply,
            ),
            citygate_high,
            citygate_dollars: whole_dollars(citygate_high),
        };
        Kept { working }
    }
}

impl IndexCard {
    /// The card of the month of five series.
    pub fn new(published: &Published) -> Result<IndexCard, Fault>
        ensures { answer (λ c. (c.terms, c.working)) result ≡ index_card published.now }
    {
        if !published.of_one_month() {
            return Err(Fault::by_card(Row::OtherMonth));
        }
        if published.passes_limits() {
            return Err(Fault::by_card(Row::PastLimit));
        }
        if published.has_no_supply() {
            return Err(Fault::by_card(Row::NoSupply));
        }
        let kept = published.working();
        let tiers = tier_prices(published.bid_week, &kept);
        let working = kept.working;
        let noncompliance = 500_000 * working.citygate_dollars;
        let terms = Terms {
            month: published.citygate.month(),
            tiers,
            noncompliance,
            credit: 58_100,
        };
        Ok(IndexCard { terms, working })
    }

    /// The figures between the published prices and the card's.
    pub fn working(&self) -> Working
        ensures { result ≡ self.now.working }
    {
        self.working
    }
}

impl Card for IndexCard {
    ghost meaning = { λ c. c.terms };

    ghost within_limits = { Prim.search rules };

    fn terms(&self) -> Terms
        ensures { result ≡ self.now.terms }
    {
        self.terms
    }
}
