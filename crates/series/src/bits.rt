// Sets of the days of a month, as the bits of a number: day 1 is the lowest.
ghost use Rattle.std.specs.Prelude.{◌≡◌, ℕ, ◌-◌, ◌^◌, ◌<◌, ◌≤◌, min, List, bit_or};
ghost use Rattle.series.specs.Days.{held, published_upto};

/// The days with one more.
pub(crate) fn with_day(days: u32, day: u8) -> u32
    requires { (1 ≤ day) × (day ≤ 31) }
    ensures { result ≡ bit_or days (2 ^ (day - 1)) }
{
    days | (1 << (day - 1))
}

/// Every day up to this one.
pub(crate) fn days_upto(day: u8) -> u32
    ensures { result ≡ 2 ^ min day 32 - 1 }
{
    if day > 31 {
        return u32::MAX;
    }
    (1 << day) - 1
}

/// How many days there are.
pub(crate) fn count(days: u32) -> u32
    ensures { (prices : List ℕ) (last : ℕ) → days < 2 ^ last → result ≡ published_upto (held days prices) last }
{
    days.count_ones()
}
