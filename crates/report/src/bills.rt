// Prints bill lines, with what they come to for each agent and in all.
use crate::dollars::Dollars;
use records::BillLine;
use register::Register;
use std::io;
use std::iter::Sum;
use tariff::Cents;

/// What bill lines come to, in cents, and how many they are.
#[derive(Clone, Copy, Default)]
pub(crate) struct Total {
    pub(crate) cents: i128,
    pub(crate) lines: u64,
}

impl Total {
    /// The total with one more line.
    fn with(self, line: &BillLine) -> Total {
        Total {
            cents: self.cents.saturating_add(line.charge.cents.count),
            lines: self.lines.saturating_add(1),
        }
    }
}

impl<'a> Sum<&'a BillLine> for Total {
    fn sum<I: Iterator<Item = &'a BillLine>>(lines: I) -> Total {
        lines.fold(Total::default(), Total::with)
    }
}

/// The total of each account of a book.
// An array, and no map: it has a place for each account, and wants no memory.
fn totals(lines: &[BillLine]) -> [Total; 64] {
    let mut totals = [Total::default(); 64];
    for line in lines {
        if let Some(total) = totals.get_mut(usize::from(line.account)) {
            *total = total.with(line);
        }
    }
    totals
}

fn print_line(rt: &HostRuntime, line: &BillLine) -> io::Result<()> {
    let account = line.account;
    let month = line.month;
    let number = line.charge.kind.number();
    let name = line.charge.kind;
    let quantity = line.charge.quantity;
    let price = format!(in rt.alloc(); "{}", Dollars::OnCard(line.charge.price))?;
    let dollars = format!(in rt.alloc(); "{}", line.charge.cents)?;
    println!(rt;
        "  {account:>7}  {month}  {number} {name:<18} {quantity:>12} {price:>14} {dollars:>20}"
    )
}

fn print_total(rt: &HostRuntime, whose: &str, total: Total) -> io::Result<()> {
    let lines = total.lines;
    let dollars = format!(in rt.alloc(); "{}", Cents { count: total.cents })?;
    println!(rt; "  {whose:<40} {lines:>5} lines {dollars:>33}")
}

/// A table of all bill lines in the order in which they were written, then the totals.
pub fn print_bills(rt: &HostRuntime, bills: &Register<'_, BillLine>) -> io::Result<()> {
    let lines = bills.since(0);
    rt.println(
        "  account  month    kind                          Dth  dollars a Dth              dollars",
    )?;
    for line in lines {
        print_line(rt, line)?;
    }
    for (account, total) in (0..64u8).zip(&totals(lines)) {
        if total.lines > 0 {
            let whose = format!(in rt.alloc(); "account {account}")?;
            print_total(rt, whose.as_str(), *total)?;
        }
    }
    print_total(rt, "in all", lines.iter().sum::<Total>())
}
