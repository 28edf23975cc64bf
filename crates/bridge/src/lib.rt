// The rules behind a C interface, so that code in another language can be held against them.
// Every number of its type may be passed: what is no month, no tolerance, no kind or no amount has an answer of its own.
// C has neither `Option` nor `Result` nor an enum of ours: numbers, flags and values of their own stand in for them here.
#![tactic(auto)]

ghost use Rattle.std.specs.Prelude.{◌≡◌, ◌^◌, ◌<◌, IfSome, unsigned_abs};
ghost use Rattle.tariff.specs.Bills.{charge, kind_number};
ghost use Rattle.tariff.specs.Months.{named};
ghost use Rattle.balancing.specs.Options.{tolerance_answer, self_balancing_split, self_balancing_excess};
ghost use Rattle.decimal.specs.Amounts.{places, amount};
ghost use Rattle.bridge.specs.Interface.{month_days, month_after, month_before, month_code, laid_out, excess_laid_out, accepted, monthly_parts, order_of, Billed, decimals_of, amount_read};

use balancing::{
    BalancingOption, Excess, FlowOrder, GasDay, Monthly, Parts, SelfBalancing, Statement,
};
use decimal::{Decimals, read_amount};
use tariff::{BillKind, Charge, Month};

// C needs a layout of its own: `Parts` and `Excess` have none that it may rely on.
/// The parts of an imbalance (Dth).
#[derive(Clone, Copy)]
#[repr(C)]
pub struct SplitParts {
    pub kept: i32,
    pub tier_one: i32,
    pub tier_two: i32,
}

/// What a day has above the daily and above the accumulated limit (Dth).
#[derive(Clone, Copy)]
#[repr(C)]
pub struct DayExcess {
    pub daily: u32,
    pub accumulated: u32,
}

/// How many days a month has; 0 where the year and the number name no month.
#[unsafe(no_mangle)]
pub extern "C" fn gbal_month_days(year: u16, number: u8) -> u8
    ensures { result ≡ month_days (named year number) }
{
    Month::new(year, number).map_or(0, |month| month.days())
}

// C has no Option: its months are a number, and 0 is none.
fn month_code(month: Option<Month>) -> u32
    ensures { result ≡ month_code month }
{
    match month {
        Some(month) => u32::from(month.year()) * 100 + u32::from(month.number()),
        None => 0,
    }
}

/// The month after, as `year * 100 + number`; 0 where there is none.
#[unsafe(no_mangle)]
pub extern "C" fn gbal_next_month(year: u16, number: u8) -> u32
    ensures { result ≡ month_code (month_after (named year number)) }
{
    month_code(Month::new(year, number).and_then(|month| month.next()))
}

/// The month before, as `year * 100 + number`; 0 where there is none.
#[unsafe(no_mangle)]
pub extern "C" fn gbal_previous_month(year: u16, number: u8) -> u32
    ensures { result ≡ month_code (month_before (named year number)) }
{
    month_code(Month::new(year, number).and_then(|month| month.previous()))
}

impl From<Parts> for SplitParts {
    ghost from_gives = { λ parts r. r ≡ laid_out parts };

    fn from(parts: Parts) -> SplitParts {
        SplitParts {
            kept: parts.kept,
            tier_one: parts.tier_one,
            tier_two: parts.tier_two,
        }
    }
}

/// Splits an imbalance under Monthly. A tolerance but 3, 4 or 5 percent is refused: the answer is false, and `parts` stays as it was.
#[unsafe(no_mangle)]
pub extern "C" fn gbal_monthly_split(
    percent: u8,
    usage: u32,
    imbalance: i32,
    parts: &mut SplitParts,
) -> bool
    ensures tolerance { result ≡ accepted (tolerance_answer percent) }
    ensures split { parts.new ≡ monthly_parts (tolerance_answer percent) usage imbalance parts.old }
{
    match Monthly::new(percent) {
        Ok(option) => {
            *parts = SplitParts::from(option.split(&Statement {
                usage,
                monthly_quantity: 0,
                imbalance,
            }));
            true
        }
        Err(_) => false,
    }
}

/// Splits an imbalance under Self-Balancing.
#[unsafe(no_mangle)]
pub extern "C" fn gbal_self_balancing_split(
    monthly_quantity: u32,
    imbalance: i32,
    parts: &mut SplitParts,
)
    ensures { parts.new ≡ laid_out (self_balancing_split monthly_quantity imbalance) }
{
    *parts = SplitParts::from(SelfBalancing.split(&Statement {
        usage: 0,
        monthly_quantity,
        imbalance,
    }));
}

// C hands a flag; a `From<bool>` would have to stand in the options' own crate, where nothing hands one.
fn flow_order(in_effect: bool) -> FlowOrder
    ensures { result ≡ order_of in_effect }
{
    if in_effect {
        FlowOrder::InEffect
    } else {
        FlowOrder::Absent
    }
}

impl From<Excess> for DayExcess {
    ghost from_gives = { λ excess r. r ≡ excess_laid_out excess };

    fn from(excess: Excess) -> DayExcess {
        DayExcess {
            daily: excess.daily,
            accumulated: excess.accumulated,
        }
    }
}

/// What a day has above its limits under Self-Balancing, while a flow order is in effect or without one.
#[unsafe(no_mangle)]
pub extern "C" fn gbal_self_balancing_excess(
    receipts: u32,
    usage: u32,
    order_in_effect: bool,
    monthly_quantity: u32,
    accumulated: i32,
    excess: &mut DayExcess,
)
    ensures { excess.new ≡ excess_laid_out (self_balancing_excess receipts usage (order_of order_in_effect) monthly_quantity accumulated) }
{
    let order = flow_order(order_in_effect);
    *excess = DayExcess::from(SelfBalancing.excess(&GasDay {
        receipts,
        usage,
        order,
        monthly_quantity,
        accumulated,
    }));
}

/// A quantity of 32 bits billed at a card price; its cents fit an `i64`, and are never the least one.
fn charged(kind: BillKind, quantity: i32, price: u32) -> Charge
    ensures value { result ≡ charge kind quantity price }
    ensures bound { unsigned_abs result.cents.count < 2 ^ 63 }
{
    Charge::new(kind, i64::from(quantity), price)
}

/// The cents billed for a quantity at a card price under the kind with a number from 1 to 5; the least `i64` where no kind has the number.
#[unsafe(no_mangle)]
pub extern "C" fn gbal_billed_cents(kind: u8, quantity: i32, price: u32) -> i64
    ensures value { Billed kind quantity price result }
    ensures told_apart { (k : BillKind) → kind_number k ≡ kind → unsigned_abs result < 2 ^ 63 }
{
    match BillKind::try_from(kind) {
        Ok(kind) => charged(kind, quantity, price).cents.count as i64,
        Err(_) => i64::MIN,
    }
}

// C hands a flag; no other caller has one.
fn decimals_of(six: bool) -> Decimals
    ensures { result ≡ decimals_of six }
{
    if six { Decimals::Six } else { Decimals::Four }
}

/// An amount, which always fits an `i64`.
fn bounded_amount(text: &[u8], decimals: Decimals) -> Option<u64>
    ensures value { result ≡ amount (places decimals) text.now }
    ensures bound { IfSome result (λ n. n < 2 ^ 63) }
{
    read_amount(text, decimals)
}

/// Reads an amount with at most six decimals, or with at most four, in units of the last of them; -1 where the text is no such amount.
#[unsafe(no_mangle)]
pub extern "C" fn gbal_read_amount(text: &[u8], six: bool) -> i64
    ensures { result ≡ amount_read (amount (places (decimals_of six)) text.now) }
{
    match bounded_amount(text, decimals_of(six)) {
        Some(units) => units as i64,
        None => -1,
    }
}
