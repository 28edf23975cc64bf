// A point's doubles over a month, and what comes first among them.
ghost use Rattle.std.specs.Prelude.{◌≡◌, ◌+◌, ◌≤◌, take, sum, slice_index};
ghost use Rattle.std.specs.List.{All};
ghost use Rattle.series.specs.Days.{daily, days_of};
ghost use Rattle.extremes.specs.Arranged.{sorted};
ghost use Rattle.cards.specs.Index.{doubles_of, point_over, highest};

use crate::index::working::Point;
use extremes::{Falling, Order, Rising, first, sum_of_five_first};
use series::PriceSeries;
use std::array;

/// A day's double: what both services have for the day.
fn double(a: &PriceSeries, b: &PriceSeries, day: u8) -> u32
    ensures value { result ≡ daily a.now day + daily b.now day }
    ensures limit { result ≤ 20000000 }
{
    a.latest_price(day) + b.latest_price(day)
}

/// How many doubles a month has: one for each day, published or carried on.
fn count_days(series: &PriceSeries) -> usize
    ensures value { result ≡ days_of series.now }
    ensures bound { (28 ≤ result) × (result ≤ 31) }
{
    // A cast: with `usize::from` the bounds stayed open.
    series.days() as usize
}

/// The doubles of a month's days at a point, from day 1 on.
// An array with a count, and no `Vec`: nothing below the reports allocates, so that no call fails for want of memory.
#[derive(Clone, Copy)]
pub(crate) struct Doubles {
    places: [u32; 31],
    days: usize,
    ghost many: { (5 ≤ days) × (days ≤ 31) },
    ghost limited: { All (λ x. x ≤ 20000000) places },
}

impl Doubles {
    ghost use Rattle.cards.specs.Doubles.{doubles_in};

    /// The doubles at a point with two services.
    pub(crate) fn of(a: &PriceSeries, b: &PriceSeries) -> Doubles
        ensures { doubles_in result ≡ doubles_of a.now b.now }
    {
        Doubles {
            places: array::from_fn(|i| double(a, b, i as u8 + 1)),
            days: count_days(a),
        }
    }

    /// All of them.
    fn all(&self) -> &[u32]
        ensures { result.now ≡ doubles_in self.now }
    {
        &self.places[..self.days]
    }

    // The bounds stand in the clauses: a double is a plain number, as is a sum of five, and `Point` is its caller's to make.

    /// The sum of the five that come first.
    fn five<O: Order>(&self) -> u64
        ensures value { result ≡ sum (take 5 (sorted O.Order.upto (doubles_in self.now))) }
        ensures bound { result ≤ 100000000 }
    {
        sum_of_five_first::<O>(self.all()).unwrap()
    }

    /// The one that comes first.
    fn one<O: Order>(&self) -> u32
        ensures value { result ≡ slice_index (sorted O.Order.upto (doubles_in self.now)) 0 }
        ensures bound { result ≤ 20000000 }
    {
        first::<O>(self.all()).unwrap()
    }

    /// Low and high, smallest and largest.
    pub(crate) fn point(&self) -> Point
        ensures value { result ≡ point_over (doubles_in self.now) }
        ensures sums { (result.low ≤ 100000000) × (result.high ≤ 100000000) }
        ensures doubles { (result.smallest ≤ 20000000) × (result.largest ≤ 20000000) }
    {
        Point {
            low: self.five::<Rising>(),
            high: self.five::<Falling>(),
            smallest: self.one::<Rising>(),
            largest: self.one::<Falling>(),
        }
    }
}

/// The highest price of a month's days.
// The limit stands in a clause: a price is a plain number.
#[tactic(auto, using(crate::proofs::Monthly::highest_more))]
pub(crate) fn highest_price(series: &PriceSeries) -> u32
    ensures value { result ≡ highest (daily series.now) (days_of series.now) }
    ensures bound { result ≤ 10000000 }
{
    // Not by `max` or `fold` over the days: of a chain that begins at a range, the proof did not close.
    let mut high = 0;
    for day in 0..series.days() {
        high = high.max(series.latest_price(day + 1));
    }
    high
}
