// Prints the gas on all pages beside what performed calls moved.
use crate::journal::Journal;
use balancing::BalancingOption;
use book::Book;
use std::io;

/// Both gas sums, part by part, with their difference, and the tally's total.
pub fn print_gas<A: BalancingOption, B: BalancingOption>(
    rt: &HostRuntime,
    book: &Book<A, B>,
    journal: &Journal,
) -> io::Result<()> {
    let sums = journal.sums;
    let gas = i128::from(book.gas());
    let moved = sums.gas();
    let total = journal.tally.total();
    let lines = [
        ("receipts of posted days", sums.receipts),
        ("less usage of posted days", sums.usage),
        ("adjustments", sums.adjusted),
        ("operating quantities stated", sums.stated),
        ("less gas cashed out on bill lines", sums.cashed_out),
        ("what performed calls leave", moved),
        ("gas on all pages", gas),
        ("difference", gas.saturating_sub(moved)),
        ("the tally's total", total),
        ("difference", gas.saturating_sub(total)),
    ];
    for (name, quantity) in lines {
        println!(rt; "  {name:<40} {quantity:>20}")?;
    }
    Ok(())
}
