// What pages make due at a card's prices, exactly: from pages, options and cards, never from a bill line.
#![tactic(auto)]

ghost use Rattle.std.specs.Prelude.{◌≡◌, ◌^◌, ◌≤◌, unsigned_abs};
ghost use Rattle.balancing.specs.Cashouts.{tier_price};
ghost use Rattle.tariff.specs.Bills.{amount_due};
ghost use Rattle.tariff.specs.declared.bill.BillKind.TheVariants.{TierOne, TierTwo};
ghost use Rattle.quote.specs.Quotes.{due};
ghost use Rattle.dues.specs.Dues.{due_at_closing, all_due};
ghost use Rattle.page.specs.Pages.{elected};
ghost use Rattle.page.specs.Settling.{parts_of};

use balancing::{BalancingOption, Parts, TierPrices};
use cards::Terms;
use page::{Credits, Options, Page};
use tariff::BillKind;

// The bounds stand in the clauses: each sum has another, and a number of 128 bits has no invariant to hold it.

/// What a quantity in Tier I makes due, at the price of its side.
fn tier_one_due(prices: &TierPrices, quantity: i32) -> i128
    ensures value { result ≡ amount_due TierOne quantity (tier_price quantity prices.now.one_over prices.now.one_under) }
    ensures bound { unsigned_abs result ≤ 2 ^ 95 }
{
    BillKind::TierOne.amount_due(i64::from(quantity), prices.tier_one_price(quantity))
}

/// What a quantity in Tier II makes due, at the price of its side.
fn tier_two_due(prices: &TierPrices, quantity: i32) -> i128
    ensures value { result ≡ amount_due TierTwo quantity (tier_price quantity prices.now.two_over prices.now.two_under) }
    ensures bound { unsigned_abs result ≤ 2 ^ 95 }
{
    BillKind::TierTwo.amount_due(i64::from(quantity), prices.tier_two_price(quantity))
}

/// What both tiers make due.
fn tiers_due(prices: &TierPrices, parts: &Parts) -> i128
    ensures value { result ≡ due prices.now parts.now }
    ensures bound { unsigned_abs result ≤ 2 ^ 96 }
{
    tier_one_due(prices, parts.tier_one) + tier_two_due(prices, parts.tier_two)
}

/// What settling makes due: both tiers of the statement's imbalance, at the card's prices, in ten-thousandths of a cent.
pub fn due_at_settling<A: BalancingOption, B: BalancingOption>(
    page: &Page,
    options: &Options<'_, A, B>,
    terms: &Terms,
) -> i128
    ensures value { result ≡ due terms.now.tiers (parts_of (elected (A.BalancingOption.rules options.now.first.now) (B.BalancingOption.rules options.now.second.now) page.now) page.now) }
    ensures bound { unsigned_abs result ≤ 2 ^ 96 }
{
    tiers_due(&terms.tiers, &page.parts(options))
}

/// What closing makes due: both sums of excesses, less the credit, at the card's prices, in ten-thousandths of a cent.
pub fn due_at_closing(page: &Page, terms: &Terms, credits: &Credits) -> i128
    ensures value { result ≡ due_at_closing terms.now credits.now page.now }
    ensures bound { unsigned_abs result ≤ 2 ^ 97 }
{
    if !page.is_open() {
        return 0;
    }
    // Casts: with `i64::from` the need that the quantities are alike stayed open.
    let daily = page.posted.daily_excess as i64;
    let accumulated = page.posted.accumulated_excess as i64;
    let usage = page.credited_usage(credits) as i64;
    let daily = BillKind::DailyExcess.amount_due(daily, terms.noncompliance);
    let accumulated = BillKind::AccumulatedExcess.amount_due(accumulated, terms.noncompliance);
    let credit = BillKind::Credit.amount_due(usage, terms.credit);
    daily + (accumulated + credit)
}

/// What all pages make due at closing.
pub fn due_in(pages: &[Page; 64], terms: &Terms, credits: &Credits) -> i128
    ensures { result ≡ all_due terms.now credits.now pages.now }
{
    // A loop: that an iterator's sum of signed numbers fits does not prove.
    let mut total = 0;
    for page in pages {
        total += due_at_closing(page, terms, credits);
    }
    total
}
