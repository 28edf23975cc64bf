// Makes a month's card from its rows of a price file.
use crate::price_file::{Entry, Name};
use balancing::TierPrices;
use cards::{Card, FixedCard, IndexCard, Published, Terms};
use series::PriceSeries;
use tariff::{Fault, Month};
use thiserror::Error;

/// A month's card, of one of the two kinds.
#[derive(Clone, Copy)]
pub(crate) enum MonthCard {
    Index(IndexCard, Published),
    Fixed(FixedCard),
}

impl MonthCard {
    pub(crate) fn terms(&self) -> Terms {
        match self {
            MonthCard::Index(card, _) => card.terms(),
            MonthCard::Fixed(card) => card.terms(),
        }
    }
}

/// Why rows that are right each for itself do not make a month.
#[derive(Clone, Copy, Debug, Error)]
pub(crate) enum Problem {
    #[error("{0}: '{1}' is given twice for its month")]
    GivenTwice(usize, Name),
    #[error("{0}: {1} has rows of an index card and of a fixed card")]
    BothKinds(usize, Month),
    #[error(" {0}: '{1}' has no price before the month")]
    NoPriceBefore(Month, Name),
    #[error(" {0}: there is no row for '{1}'")]
    NoRow(Month, Name),
    #[error("{0}: {1}")]
    RowRefused(usize, Fault),
}

/// A price as the cards take it; what does not fit is past every limit there.
// No `From`, which may lose nothing, and no `try_from` alone: the cards refuse what does not fit, as they do any price past a limit.
fn narrow(value: u64) -> u32 {
    u32::try_from(value).unwrap_or(u32::MAX)
}

/// A month's rows, in the order of the file.
#[derive(Clone, Copy)]
struct Rows<'a> {
    month: Month,
    entries: &'a [Entry],
}

impl Rows<'_> {
    /// The one row of a name that has no day.
    fn only(&self, name: Name) -> Result<u32, Problem> {
        let mut found = self.entries.iter().filter(|entry| entry.name == name);
        let first = found.next().ok_or(Problem::NoRow(self.month, name))?;
        // A match, since here it is a row too many, and not the want of one, that is the problem.
        match found.next() {
            Some(second) => Err(Problem::GivenTwice(second.line, name)),
            None => Ok(narrow(first.value)),
        }
    }

    /// The prices of a point; where rows share a day, the last one counts.
    fn series(&self, name: Name) -> Result<PriceSeries, Problem> {
        let before = self
            .entries
            .iter()
            .rfind(|entry| entry.name == name && entry.day.is_none())
            .ok_or(Problem::NoPriceBefore(self.month, name))?;
        let mut series = PriceSeries::new(
            self.month.year(),
            self.month.number(),
            narrow(before.value),
        ).map_err(|fault| Problem::RowRefused(before.line, fault))?;
        for entry in self.entries.iter().filter(|entry| entry.name == name) {
            if let Some(day) = entry.day {
                series
                    .enter(day, narrow(entry.value))
                    .map_err(|fault| Problem::RowRefused(entry.line, fault))?;
            }
        }
        Ok(series)
    }

    fn published(&self) -> Result<Published, Problem> {
        Ok(Published {
            malin_a: self.series(Name::MalinA)?,
            malin_b: self.series(Name::MalinB)?,
            topock_a: self.series(Name::TopockA)?,
            topock_b: self.series(Name::TopockB)?,
            citygate: self.series(Name::Citygate)?,
            malin_supply: self.only(Name::MalinSupply)?,
            topock_supply: self.only(Name::TopockSupply)?,
            bid_week: self.only(Name::BidWeek)?,
            citygate_index: self.only(Name::CitygateIndex)?,
        })
    }

    fn tiers(&self) -> Result<TierPrices, Problem> {
        Ok(TierPrices {
            one_over: self.only(Name::TierOneOver)?,
            one_under: self.only(Name::TierOneUnder)?,
            two_over: self.only(Name::TierTwoOver)?,
            two_under: self.only(Name::TierTwoUnder)?,
        })
    }

    /// Whether the month's card is a fixed one, as its first row says; no other row may differ.
    fn is_fixed(&self) -> Result<bool, Problem> {
        let fixed = self
            .entries
            .first()
            .is_some_and(|entry| entry.name.is_fixed());
        // A match, since here it is a row that is found, and not the want of one, that is the problem.
        match self
            .entries
            .iter()
            .find(|entry| entry.name.is_fixed() != fixed)
        {
            Some(entry) => Err(Problem::BothKinds(entry.line, self.month)),
            None => Ok(fixed),
        }
    }
}

/// The card of a month, or its refusal, from the month's rows.
pub(crate) fn month_card(
    month: Month,
    entries: &[Entry],
) -> Result<Result<MonthCard, Fault>, Problem> {
    let rows = Rows { month, entries };
    if rows.is_fixed()? {
        let tiers = rows.tiers()?;
        return Ok(FixedCard::new(month.year(), month.number(), tiers).map(MonthCard::Fixed));
    }
    let published = rows.published()?;
    Ok(IndexCard::new(&published).map(|card| MonthCard::Index(card, published)))
}
