// What the program says of itself.
use figures::worked_figures;
use std::io;

const HELP: &str = "settle: gas imbalances under Schedule G-BAL, from the command line

  settle                  quote a built-in sample
  settle quote ARGUMENTS  split a statement's imbalance and price its cashout
  settle prices ARGUMENTS make each month's price card from a price file
  settle --help           this text
  settle --version        the version

The arguments of a quote, each with a value after it, in any order:
  --option            monthly or self-balancing
  --tolerance         3, 4 or 5 percent, for monthly only (5 if left out)
  --usage             the statement month's usage, in whole Dth
  --monthly-quantity  its monthly quantity, in whole Dth
  --imbalance         what is out of balance, in whole Dth; under-delivery is negative
  --tier-one-over     price of over-delivery in Tier I, in dollars for each Dth
  --tier-one-under    price of under-delivery in Tier I
  --tier-two-over     price of over-delivery in Tier II
  --tier-two-under    price of under-delivery in Tier II
  --format            table (the default) or csv

The arguments of prices:
  --prices            the price file: rows of month,name,day,price under that header
  --format            table (the default, with the working of each card) or csv

Quantities go up to 100000000, prices up to 1500 dollars with at most six decimals.
What is wrong with the arguments, or with a row of a file, is said in one line on standard error; the status is then 1.

Example:
  settle quote --option monthly --usage 1000 --monthly-quantity 1200 --imbalance -101 \\
    --tier-one-over 2.115 --tier-one-under 4.8125 --tier-two-over 1.02 --tier-two-under 7.35
";

pub(crate) fn print_help(rt: &HostRuntime) -> io::Result<()> {
    rt.print(HELP)
}

pub(crate) fn print_version(rt: &HostRuntime) -> io::Result<()> {
    let figures = worked_figures();
    println!(rt;
        "settle 0.2.0, gas imbalances under Schedule G-BAL ({figures} worked figures proved)"
    )
}
