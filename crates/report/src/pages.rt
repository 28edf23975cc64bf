// Prints the pages of the open accounts, each beside the tally's number.
use crate::journal::Journal;
use balancing::BalancingOption;
use book::Book;
use page::Page;
use records::Election;
use std::{array, io};

/// The page of each account that is open.
// An array, and no `Vec`: the tables of pages are printed whether there is memory to be had or not.
fn open_pages<A: BalancingOption, B: BalancingOption>(book: &Book<A, B>) -> [Option<Page>; 64] {
    array::from_fn(|account| book.page(account as u8).ok())
}

/// The mark of the option that a page elected.
fn mark<A: BalancingOption, B: BalancingOption>(page: &Page) -> char {
    // A match, since the two options are types, and a mark belongs to its type.
    match page.election {
        Election::First => A::MARK,
        Election::Second => B::MARK,
    }
}

/// Whether a page's statement is settled.
// A word, and no enum with a `Display`: only the table of pages has it.
fn settled(page: &Page) -> &'static str {
    if page.settled { "yes" } else { "no" }
}

/// An account's gas, beside the tally's number.
fn print_gas_held(rt: &HostRuntime, account: u8, page: &Page, number: i64) -> io::Result<()> {
    let running = page.gas.running;
    let statement = page.gas.statement;
    let operating = page.gas.operating;
    let carryover = page.gas.carryover;
    let carried = page.gas.carried;
    let gas = page.gas_held();
    let difference = i128::from(gas) - i128::from(number);
    println!(rt;
        "  {account:>7} {running:>11} {statement:>11} {operating:>11} {carryover:>11} {carried:>11} {gas:>12} {number:>12} {difference:>11}"
    )
}

/// What an account is, with its running month and its statement.
fn print_months(rt: &HostRuntime, account: u8, mark: char, page: &Page) -> io::Result<()> {
    let kind = page.kind;
    let day = page.posted.day;
    let usage = page.month.usage;
    let quantity = page.month.monthly_quantity;
    let daily = page.posted.daily_excess;
    let accumulated = page.posted.accumulated_excess;
    let stated_usage = page.statement.usage;
    let stated_quantity = page.statement.monthly_quantity;
    let settled = settled(page);
    println!(rt;
        "  {account:>7}  {kind:<10}  {mark} {day:>4} {usage:>10} {quantity:>10} {daily:>11} {accumulated:>11} {stated_usage:>10} {stated_quantity:>10}  {settled}"
    )
}

/// Says so where the tally lacks calls, since its numbers then mean nothing.
fn print_uncounted(rt: &HostRuntime, calls: usize) -> io::Result<()> {
    if calls == 0 {
        return Ok(());
    }
    println!(rt; "  NOT COUNTED: {calls} performed calls are missing in the tally")
}

/// Two tables of the open accounts, in Dth: what each is with its month and its statement, and its gas beside the tally.
pub fn print_pages<A: BalancingOption, B: BalancingOption>(
    rt: &HostRuntime,
    book: &Book<A, B>,
    journal: &Journal,
) -> io::Result<()> {
    let pages = open_pages(book);
    rt.println(
        "                              running month                                   statement\n  account  kind        O  day      usage   quantity  daily exc.  accum. exc.     usage   quantity  settled",
    )?;
    for (account, page) in (0..64u8).zip(&pages) {
        if let Some(page) = page {
            print_months(rt, account, mark::<A, B>(page), page)?;
        }
    }
    rt.println(
        "  account   running R statement S operating P carryover C   carried K  gas on page    the tally  difference",
    )?;
    for (account, page) in (0..64u8).zip(&pages) {
        if let Some(page) = page {
            print_gas_held(rt, account, page, journal.tally.number(account))?;
        }
    }
    print_uncounted(rt, journal.uncounted)
}
