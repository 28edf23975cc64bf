// Prints a quote.
use crate::request::{Choice, Layout, Request};
use quote::Quote;
use report::Dollars;
use std::cmp::Ordering;
use std::io;
use tariff::{Cents, Charge};

pub(crate) fn print_quote(rt: &HostRuntime, request: &Request, quote: &Quote) -> io::Result<()> {
    // A match, since a trait with a type for each layout would only hand on the same calls.
    match request.layout {
        Layout::Csv => print_csv(rt, request, quote),
        Layout::Table => {
            print_statement(rt, request)?;
            print_parts(rt, request, quote)?;
            print_lines(rt, quote)?;
            print_total(rt, quote.cashout.total)
        }
    }
}

fn print_statement(rt: &HostRuntime, request: &Request) -> io::Result<()> {
    let usage = request.statement.usage;
    let quantity = request.statement.monthly_quantity;
    // A match, since only one of the two options has a percentage to print.
    match request.choice {
        Choice::Monthly(option) => {
            let percent = option.tolerance.percent();
            println!(rt; "Quote under Schedule G-BAL: monthly balancing within {percent} percent")?;
        }
        Choice::SelfBalancing => println!(rt; "Quote under Schedule G-BAL: self-balancing")?,
    }
    println!(rt; "  usage             {usage:>12} Dth")?;
    println!(rt; "  monthly quantity  {quantity:>12} Dth")
}

fn print_parts(rt: &HostRuntime, request: &Request, quote: &Quote) -> io::Result<()> {
    let imbalance = request.statement.imbalance;
    let parts = [
        ("kept", quote.parts.kept),
        ("Tier I", quote.parts.tier_one),
        ("Tier II", quote.parts.tier_two),
    ];
    println!(rt; "\nParts of the imbalance")?;
    for (name, quantity) in parts {
        println!(rt; "  {name:<18}{quantity:>12} Dth")?;
    }
    println!(rt; "  imbalance         {imbalance:>12} Dth, the sum of the parts")
}

/// On which side of the balance a quantity stands.
// A word, and no enum with a `Display`: only the table of bill lines has it.
fn side(quantity: i64) -> &'static str {
    if quantity < 0 {
        "under-delivered"
    } else {
        "over-delivered"
    }
}

fn print_line(rt: &HostRuntime, name: &str, charge: &Charge) -> io::Result<()> {
    let kind = charge.kind.number();
    let quantity = charge.quantity;
    let side = side(quantity);
    let price = format!(in rt.alloc(); "{}", Dollars::OnCard(charge.price))?;
    let dollars = format!(in rt.alloc(); "{}", charge.cents)?;
    println!(rt; "  {kind}  {name:<8}{side:<16}{quantity:>12}  {price:>14}  {dollars:>20}")
}

fn print_lines(rt: &HostRuntime, quote: &Quote) -> io::Result<()> {
    println!(rt;
        "\nBill lines                   quantity Dth   dollars a Dth               dollars"
    )?;
    let tiers = [
        ("Tier I", quote.cashout.tier_one),
        ("Tier II", quote.cashout.tier_two),
    ];
    for (name, line) in tiers {
        if let Some(charge) = line {
            print_line(rt, name, &charge)?;
        }
    }
    let total = format!(in rt.alloc(); "{}", quote.cashout.total)?;
    println!(rt; "     total                                                 {total:>20}")
}

fn print_total(rt: &HostRuntime, total: Cents) -> io::Result<()> {
    let dollars = Cents {
        count: total.count.saturating_abs(),
    };
    match total.count.cmp(&0) {
        Ordering::Less => println!(rt; "\nThe agent is paid {dollars} dollars."),
        Ordering::Equal => println!(rt; "\nNothing is owed."),
        Ordering::Greater => println!(rt; "\nThe agent owes {dollars} dollars."),
    }
}

fn print_csv_line(
    rt: &HostRuntime,
    name: &str,
    quantity: i32,
    line: Option<Charge>,
) -> io::Result<()> {
    let Some(charge) = line else {
        return println!(rt; "{name},,{quantity},,");
    };
    let kind = charge.kind.number();
    let price = Dollars::OnCard(charge.price);
    let cents = charge.cents;
    println!(rt; "{name},{kind},{quantity},{price},{cents}")
}

fn print_csv(rt: &HostRuntime, request: &Request, quote: &Quote) -> io::Result<()> {
    let imbalance = request.statement.imbalance;
    let total = quote.cashout.total;
    println!(rt; "item,kind,quantity,price,dollars")?;
    print_csv_line(rt, "kept", quote.parts.kept, None)?;
    print_csv_line(rt, "tier-one", quote.parts.tier_one, quote.cashout.tier_one)?;
    print_csv_line(rt, "tier-two", quote.parts.tier_two, quote.cashout.tier_two)?;
    println!(rt; "total,,{imbalance},,{total}")
}
