// What a price series is asked.
ghost use Rattle.std.specs.Prelude.{◌≡◌, ℕ, ◌≤◌, false, ◌&&◌, IfSome, is_ok, IfOk, if◌then◌else◌, Some, None, ◌==◌, nat_eq};
ghost use Rattle.tariff.specs.Faults.{answer};
ghost use Rattle.tariff.specs.Months.{days_in, from_to};
ghost use Rattle.series.specs.Days.{entered, month_of, days_of, published_upto, price_at, daily, Rule};
ghost use Rattle.series.specs.Refusals.{opening, entering, pricing};

use crate::bits::{count, days_upto, with_day};
use crate::{MOST_PRICE, PriceSeries};
use tariff::{Fault, Month, Row};

impl PriceSeries {
    /// A series without entries, for the month `month` (1 to 12) of `year`, with the price that holds until the first entry.
    // Year and number apart: what names no month is refused here, as row 1 of the card.
    pub fn new(year: u16, month: u8, before: u32) -> Result<PriceSeries, Fault>
        ensures outcome { answer (λ s. month_of s) result ≡ opening year month before }
        ensures before { IfOk result (λ s. s.before ≡ before) }
        ensures none { IfOk result (λ s. (d : ℕ) → entered s d ≡ None) }
    {
        let month = Month::new(year, month).ok_or(Fault::by_card(Row::Field))?;
        if before > MOST_PRICE {
            return Err(Fault::by_card(Row::PastLimit));
        }
        Ok(PriceSeries {
            month,
            days: month.days(),
            before,
            published: 0,
            prices: [0; 31],
        })
    }

    /// Enters a day's price. A day that is entered again takes the new price, and no other day changes.
    pub fn enter(&mut self, day: u8, price: u32) -> Result<(), Fault>
        ensures outcome { answer (λ x. x) result ≡ entering (days_of self.old) day price }
        ensures month { self.new.month ≡ self.old.month }
        ensures before { self.new.before ≡ self.old.before }
        ensures entries { (d : ℕ) → entered self.new d ≡ (if is_ok result && d == day then Some price else entered self.old d) }
        ensures unchanged { is_ok result ≡ false → self.new ≡ self.old }
    {
        if !self.has_day(day) {
            return Err(Fault::by_card(Row::Field));
        }
        if price > MOST_PRICE {
            return Err(Fault::by_card(Row::PastLimit));
        }
        self.put(day, price);
        Ok(())
    }

    /// Enters the price of one of the month's days.
    fn put(&mut self, day: u8, price: u32)
        requires { (1 ≤ day) × ((day ≤ self.old.days) × (price ≤ 10000000)) }
        ensures month { self.new.month ≡ self.old.month }
        ensures before { self.new.before ≡ self.old.before }
        ensures entries { (d : ℕ) → entered self.new d ≡ (if nat_eq d day then Some price else entered self.old d) }
    {
        self.published = with_day(self.published, day);
        // Casts of a day here and below: with `usize::from` the bounds stayed open.
        self.prices[day as usize - 1] = price;
    }

    /// The month whose prices these are.
    pub fn month(&self) -> Month
        ensures { result ≡ month_of self.now }
    {
        self.month
    }

    /// Whether the month has this day.
    fn has_day(&self, day: u8) -> bool
        ensures { result ≡ from_to 1 (days_of self.now) day }
    {
        (1..=self.days).contains(&day)
    }

    /// How many days the month has.
    pub fn days(&self) -> u8
        ensures value { result ≡ days_of self.now }
        ensures calendar { result ≡ days_in (month_of self.now) }
        ensures bound { (28 ≤ result) × (result ≤ 31) }
    {
        self.days
    }

    /// How many days have an entry.
    pub fn published_days(&self) -> u32
        ensures { result ≡ published_upto (entered self.now) (days_of self.now) }
    {
        count(self.published)
    }

    /// The last published day up to `day`, if there is one.
    fn latest_day(&self, day: u8) -> Option<u32>
        ensures within { IfSome result (λ d. (1 ≤ d) × (d ≤ 31)) }
        ensures value { price_at self.now result ≡ daily self.now day }
        ensures rule { Rule self.now day (price_at self.now result) }
    {
        let upto = self.published & days_upto(day);
        if upto == 0 {
            return None;
        }
        Some(32 - upto.leading_zeros())
    }

    // The limit of a price stands in the clauses of both: a price is a plain number to whoever asks for it.

    /// The price of the last published day up to `day`, or else the price before the month.
    pub fn latest_price(&self, day: u8) -> u32
        ensures value { result ≡ daily self.now day }
        ensures rule { Rule self.now day result }
        ensures limit { result ≤ 10000000 }
    {
        self.latest_day(day)
            .map_or(self.before, |latest| self.prices[latest as usize - 1])
    }

    /// The price of one of the month's days.
    pub fn price(&self, day: u8) -> Result<u32, Fault>
        ensures outcome { answer (λ p. p) result ≡ pricing self.now day }
        ensures limit { IfOk result (λ p. p ≤ 10000000) }
    {
        if self.has_day(day) {
            Ok(self.latest_price(day))
        } else {
            Err(Fault::by_card(Row::Field))
        }
    }
}
