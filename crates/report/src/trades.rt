// Prints trade confirmations.
use records::Trade;
use register::Register;
use std::io;

fn print_trade(rt: &HostRuntime, trade: &Trade) -> io::Result<()> {
    let month = trade.month;
    let giver = trade.giver;
    let gives = trade.gives;
    let taker = trade.taker;
    let takes = trade.takes;
    let quantity = trade.quantity;
    println!(rt;
        "  {month}  account {giver:>2} ({gives}) to account {taker:>2} ({takes}) {quantity:>10} Dth"
    )
}

/// A line for each trade that was accepted, in that order.
pub fn print_trades(rt: &HostRuntime, trades: &Register<'_, Trade>) -> io::Result<()> {
    for trade in trades.since(0) {
        print_trade(rt, trade)?;
    }
    Ok(())
}
