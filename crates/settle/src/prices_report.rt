// Prints the cards of a price file, each with its working.
use crate::month_cards::MonthCard;
use crate::request::Layout;
use cards::{Card, IndexCard, Point, Published, Terms, Working};
use report::Dollars;
use std::{fmt, io};
use tariff::{Fault, Month};

/// A card's six prices, in millionths of a dollar: each with its name in a table, and its name for spreadsheets.
fn card_prices(terms: &Terms) -> [(&'static str, &'static str, u32); 6] {
    let tiers = terms.tiers;
    [
        ("Tier I over", "tier-one-over", tiers.one_over),
        ("Tier I under", "tier-one-under", tiers.one_under),
        ("Tier II over", "tier-two-over", tiers.two_over),
        ("Tier II under", "tier-two-under", tiers.two_under),
        ("noncompliance", "noncompliance", terms.noncompliance),
        ("credit", "credit", terms.credit),
    ]
}

/// A line of a card: what it is, and its number.
fn print_item<N: fmt::Display + Drop>(rt: &HostRuntime, name: &str, number: N) -> io::Result<()> {
    let text = format!(in rt.alloc(); "{number}")?;
    println!(rt; "  {name:<34}{text:>14}")
}

fn print_terms(rt: &HostRuntime, terms: &Terms) -> io::Result<()> {
    println!(rt; "  Card prices, dollars a Dth")?;
    for (name, _, price) in card_prices(terms) {
        print_item(rt, name, Dollars::OnCard(price))?;
    }
    Ok(())
}

/// What the doubles of a point come to.
fn print_point(rt: &HostRuntime, place: &str, point: &Point) -> io::Result<()> {
    let items = [
        ("low, five smallest doubles", point.low),
        ("high, five largest doubles", point.high),
        ("smallest double", u64::from(point.smallest)),
        ("largest double", u64::from(point.largest)),
    ];
    for (what, price) in items {
        let name = format!(in rt.alloc(); "{place} {what}")?;
        print_item(rt, name.as_str(), Dollars::Published(price))?;
    }
    Ok(())
}

fn print_weights(rt: &HostRuntime, working: &Working, published: &Published) -> io::Result<()> {
    let items = [
        ("weighted low", working.weighted_low),
        ("weighted high", working.weighted_high),
        ("bid-week index", u64::from(published.bid_week)),
        ("Citygate's highest price", u64::from(working.citygate_high)),
    ];
    print_item(rt, "Malin supply, Dth", published.malin_supply)?;
    print_item(rt, "Topock supply, Dth", published.topock_supply)?;
    for (name, price) in items {
        print_item(rt, name, Dollars::Published(price))?;
    }
    print_item(rt, "Citygate in whole dollars", working.citygate_dollars)
}

fn print_days(rt: &HostRuntime, published: &Published) -> io::Result<()> {
    let malin_a = published.malin_a.published_days();
    let malin_b = published.malin_b.published_days();
    let topock_a = published.topock_a.published_days();
    let topock_b = published.topock_b.published_days();
    let citygate = published.citygate.published_days();
    println!(rt;
        "  published days: Malin {malin_a} and {malin_b}, Topock {topock_a} and {topock_b}, Citygate {citygate}"
    )
}

fn print_index(rt: &HostRuntime, card: &IndexCard, published: &Published) -> io::Result<()> {
    let working = card.working();
    print_days(rt, published)?;
    println!(rt; "  Working, dollars")?;
    print_point(rt, "Malin", &working.malin)?;
    print_point(rt, "Topock", &working.topock)?;
    print_weights(rt, &working, published)
}

/// A card with its working, or why there is none.
fn print_table(rt: &HostRuntime, month: Month, card: &Result<MonthCard, Fault>) -> io::Result<()> {
    match card {
        Ok(MonthCard::Index(index, published)) => {
            println!(rt; "{month}: index card")?;
            print_index(rt, index, published)?;
            print_terms(rt, &index.terms())
        }
        Ok(MonthCard::Fixed(fixed)) => {
            println!(rt; "{month}: fixed card")?;
            print_terms(rt, &fixed.terms())
        }
        Err(fault) => println!(rt; "{month}: no card: {fault}"),
    }
}

/// A line for each price of a card; none for a refused card.
fn print_csv(rt: &HostRuntime, month: Month, card: &Result<MonthCard, Fault>) -> io::Result<()> {
    if let Ok(card) = card {
        for (_, name, price) in card_prices(&card.terms()) {
            let dollars = Dollars::OnCard(price);
            println!(rt; "{month},{name},{dollars}")?;
        }
    }
    Ok(())
}

// Both functions below match on the layout: a trait with a type for each layout would only hand on the same calls.

/// Prints what stands above the cards of all months.
pub(crate) fn print_header(rt: &HostRuntime, layout: Layout) -> io::Result<()> {
    match layout {
        Layout::Table => Ok(()),
        Layout::Csv => println!(rt; "month,name,dollars"),
    }
}

/// Prints what became of a month.
pub(crate) fn print_month(
    rt: &HostRuntime,
    layout: Layout,
    month: Month,
    card: &Result<MonthCard, Fault>,
) -> io::Result<()> {
    match layout {
        Layout::Table => print_table(rt, month, card),
        Layout::Csv => print_csv(rt, month, card),
    }
}
