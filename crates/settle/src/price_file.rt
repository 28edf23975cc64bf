// Reads a price file: comma-separated rows under the header `month,name,day,price`.
use decimal::{Decimals, read_amount};
use std::fmt;
use std::str::FromStr;
use tariff::Month;
use thiserror::Error;

pub(crate) const HEADER: &str = "month,name,day,price";

/// What a row prices.
#[derive(Clone, Copy, Debug, PartialEq, Eq)]
pub(crate) enum Name {
    MalinA,
    MalinB,
    TopockA,
    TopockB,
    Citygate,
    BidWeek,
    CitygateIndex,
    MalinSupply,
    TopockSupply,
    TierOneOver,
    TierOneUnder,
    TierTwoOver,
    TierTwoUnder,
}

impl Name {
    /// Whether rows of this name have a day.
    fn is_series(self) -> bool {
        matches!(
            self,
            Name::MalinA | Name::MalinB | Name::TopockA | Name::TopockB | Name::Citygate
        )
    }

    /// Whether the name belongs to a fixed card.
    pub(crate) fn is_fixed(self) -> bool {
        matches!(
            self,
            Name::TierOneOver | Name::TierOneUnder | Name::TierTwoOver | Name::TierTwoUnder
        )
    }

    fn is_supply(self) -> bool {
        matches!(self, Name::MalinSupply | Name::TopockSupply)
    }
}

// The names stand here and below again: a table of both would be searched, and a search may find nothing.
impl fmt::Display for Name {
    fn fmt<W: fmt::Write>(&self, f: &mut fmt::Formatter<W>) -> fmt::Result {
        f.write_str(match self {
            Name::MalinA => "malin-a",
            Name::MalinB => "malin-b",
            Name::TopockA => "topock-a",
            Name::TopockB => "topock-b",
            Name::Citygate => "citygate",
            Name::BidWeek => "bid-week",
            Name::CitygateIndex => "citygate-index",
            Name::MalinSupply => "malin-supply",
            Name::TopockSupply => "topock-supply",
            Name::TierOneOver => "tier-one-over",
            Name::TierOneUnder => "tier-one-under",
            Name::TierTwoOver => "tier-two-over",
            Name::TierTwoUnder => "tier-two-under",
        })
    }
}

// Not `FromStr`, whose error could not hold the text that is no name.
impl<'a> TryFrom<&'a str> for Name {
    type Error = Misread<'a>;

    /// The name that is printed so.
    fn try_from(text: &'a str) -> Result<Name, Misread<'a>> {
        match text {
            "malin-a" => Ok(Name::MalinA),
            "malin-b" => Ok(Name::MalinB),
            "topock-a" => Ok(Name::TopockA),
            "topock-b" => Ok(Name::TopockB),
            "citygate" => Ok(Name::Citygate),
            "bid-week" => Ok(Name::BidWeek),
            "citygate-index" => Ok(Name::CitygateIndex),
            "malin-supply" => Ok(Name::MalinSupply),
            "topock-supply" => Ok(Name::TopockSupply),
            "tier-one-over" => Ok(Name::TierOneOver),
            "tier-one-under" => Ok(Name::TierOneUnder),
            "tier-two-over" => Ok(Name::TierTwoOver),
            "tier-two-under" => Ok(Name::TierTwoUnder),
            _ => Err(Misread::BadName(text)),
        }
    }
}

/// A row: its line in the file, its month, what it prices, the day (none for the price before the month, and for what has no
/// day), and its amount in units of the last decimal that its name allows.
#[derive(Clone, Copy)]
pub(crate) struct Entry {
    pub(crate) line: usize,
    pub(crate) month: Month,
    pub(crate) name: Name,
    pub(crate) day: Option<u8>,
    pub(crate) value: u64,
}

/// Why a row is not understood.
#[derive(Clone, Copy, Debug, Error)]
pub(crate) enum Misread<'a> {
    #[error("a row has four fields: month,name,day,price")]
    Fields,
    #[error("'{0}' is not a month from 2000-01 to 2099-12")]
    BadMonth(&'a str),
    #[error("'{0}' is not the name of a price")]
    BadName(&'a str),
    #[error("'{0}' is not a day: 'before', or 1 to 31")]
    BadDay(&'a str),
    #[error("'{0}' stands where this name has no day")]
    NeedlessDay(&'a str),
    #[error("'{0}' is not {1}")]
    BadAmount(&'a str, &'static str),
}

/// A whole number, written with digits alone.
fn read_whole<N: FromStr>(text: &str) -> Option<N>
where
    N::Err: Drop,
{
    if text.starts_with('+') {
        return None;
    }
    text.parse().ok()
}

/// The month that is printed so.
// A function, since `FromStr` for a month could stand only in `tariff`.
fn read_month(text: &str) -> Option<Month> {
    let (year, number) = text.split_once('-')?;
    if year.len() != 4 || number.len() != 2 {
        return None;
    }
    Month::new(read_whole(year)?, read_whole(number)?)
}

/// The day of a row; none for the price before the month, and for what has no day.
fn read_day(name: Name, text: &str) -> Result<Option<u8>, Misread<'_>> {
    match (name.is_series(), text) {
        (false, "") | (true, "before") => Ok(None),
        (false, _) => Err(Misread::NeedlessDay(text)),
        (true, _) => read_whole(text)
            .filter(|day| (1..=31).contains(day))
            .map(Some)
            .ok_or(Misread::BadDay(text)),
    }
}

fn read_value(name: Name, text: &str) -> Result<u64, Misread<'_>> {
    let (value, wanted) = if name.is_supply() {
        (read_whole(text), "a whole number of Dth")
    } else if name.is_fixed() {
        (
            read_amount(text.as_bytes(), Decimals::Six),
            "an amount in dollars with at most six decimals",
        )
    } else {
        (
            read_amount(text.as_bytes(), Decimals::Four),
            "an amount in dollars with at most four decimals",
        )
    };
    value.ok_or(Misread::BadAmount(text, wanted))
}

/// The four fields of a row.
// Not by the kit's `csv`: no field holds a comma, so none is quoted, and a quote is told as part of a bad field.
fn fields(text: &str) -> Option<(&str, &str, &str, &str)> {
    let mut parts = text.split(',');
    let row = (parts.next()?, parts.next()?, parts.next()?, parts.next()?);
    parts.next().is_none().then_some(row)
}

/// The row that stands at a line.
pub(crate) fn read_row(line: usize, text: &str) -> Result<Entry, Misread<'_>> {
    let (month, name, day, price) = fields(text).ok_or(Misread::Fields)?;
    let month = read_month(month).ok_or(Misread::BadMonth(month))?;
    let name = Name::try_from(name)?;
    Ok(Entry {
        line,
        month,
        name,
        day: read_day(name, day)?,
        value: read_value(name, price)?,
    })
}
