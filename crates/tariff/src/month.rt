// Calendar months from January 2000 to December 2099.
ghost use Rattle.std.specs.Prelude.{◌≡◌, ℕ, ◌+◌, ◌<◌, ◌≤◌, Some};
ghost use Rattle.tariff.specs.Months.{since, named, year_of, number_of, days_in, following, preceding, follows, ReadsBack, month_text};

use std::fmt;

/// The days of January to December, in a year that is not a leap year.
const LENGTHS: [u8; 12] = [31, 28, 31, 30, 31, 30, 31, 31, 30, 31, 30, 31];

/// A month, by the number of months since January 2000.
#[derive(Clone, Copy, Debug, PartialEq, Eq, PartialOrd, Ord)]
pub struct Month {
    index: u16,
}

impl Month {
    /// The month `number` (1 to 12) of `year` (2000 to 2099), or none.
    pub fn new(year: u16, number: u8) -> Option<Month>
        ensures value { result ≡ named year number }
        ensures reads_back { ReadsBack year number result }
    {
        if !(2000..=2099).contains(&year) || !(1..=12).contains(&number) {
            return None;
        }
        Some(Month {
            index: (year - 2000) * 12 + (u16::from(number) - 1),
        })
    }

    pub fn year(&self) -> u16
        ensures value { result ≡ year_of self.now }
        ensures bound { result < 8000 }
    {
        2000 + self.index / 12
    }

    /// January is 1.
    pub fn number(&self) -> u8
        ensures { result ≡ number_of self.now }
    {
        (self.index % 12) as u8 + 1
    }

    /// How many days the month has.
    pub fn days(&self) -> u8
        ensures value { result ≡ days_in self.now }
        ensures bound { (28 ≤ result) × (result ≤ 31) }
    {
        if self.number() == 2 && self.year() % 4 == 0 {
            return 29;
        }
        LENGTHS[usize::from(self.index % 12)]
    }

    /// The month after, or none after December 2099.
    pub fn next(&self) -> Option<Month>
        ensures value { result ≡ following self.now }
        ensures one_later { self.now.index < 1199 → result ≡ Some (since (self.now.index + 1)) }
    {
        if self.number() == 12 {
            return Month::new(self.year() + 1, 1);
        }
        Month::new(self.year(), self.number() + 1)
    }

    /// The month before, or none before January 2000.
    pub fn previous(&self) -> Option<Month>
        ensures value { result ≡ preceding self.now }
        ensures one_earlier { (n : ℕ) → n < 1199 → self.now ≡ since (n + 1) → result ≡ Some (since n) }
    {
        if self.number() == 1 {
            return Month::new(self.year() - 1, 12);
        }
        Month::new(self.year(), self.number() - 1)
    }

    /// Whether another month comes next after this one.
    pub fn is_followed_by(&self, other: Month) -> bool
        ensures { result ≡ follows self.now other }
    {
        self.next() == Some(other)
    }
}

impl fmt::Display for Month {
    ghost output = { λ m. Some (month_text m) };

    fn fmt<W: fmt::Write>(&self, f: &mut fmt::Formatter<W>) -> fmt::Result {
        let year = self.year();
        let number = self.number();
        write!(f, "{year}-{number:02}")
    }
}
