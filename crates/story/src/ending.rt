// The end: every bill line and trade, the pages beside the tally, and the sums.
use crate::desk::Desk;
use report::{print_bills, print_gas, print_money, print_trades};
use std::io;

/// What the two months left.
pub(crate) fn tell(rt: &HostRuntime, desk: &Desk<'_, '_>) -> io::Result<()> {
    rt.println("\nTrades")?;
    print_trades(rt, &desk.trades)?;
    rt.println("\nBill lines; what an agent owes is positive")?;
    print_bills(rt, &desk.bills)?;
    desk.print_pages(rt, "\nPages in April 2026, in Dth")?;
    rt.println("\nGas in all, in Dth")?;
    print_gas(rt, &desk.book, &desk.journal)?;
    rt.println("\nMoney in all, in dollars")?;
    print_money(rt, &desk.bills, &desk.journal)
}
