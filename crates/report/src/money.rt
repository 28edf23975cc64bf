// Prints what was billed beside the amounts due.
use crate::bills::Total;
use crate::dollars::Dollars;
use crate::journal::Journal;
use records::BillLine;
use register::Register;
use std::io;

/// Billed cents against the amounts due, in dollars: the difference lies within half a cent for each line.
pub fn print_money(
    rt: &HostRuntime,
    bills: &Register<'_, BillLine>,
    journal: &Journal,
) -> io::Result<()> {
    let total: Total = bills.since(0).iter().sum();
    let billed = total.cents.saturating_mul(10_000);
    let due = journal.sums.due;
    let lines = [
        ("billed on all lines", billed),
        ("amounts due", due),
        ("difference", billed.saturating_sub(due)),
        (
            "bound, half a cent for each line",
            i128::from(total.lines).saturating_mul(5_000),
        ),
    ];
    for (name, amount) in lines {
        let dollars = format!(in rt.alloc(); "{}", Dollars::Exact(amount))?;
        println!(rt; "  {name:<40} {dollars:>24}")?;
    }
    Ok(())
}
