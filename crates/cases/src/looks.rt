// Looks at pages, bill lines and trade confirmations.
use crate::desk::Desk;
use crate::fields::{Fields, same};
use page::{Basis, Gas, Page};
use records::{BillLine, Trade};
use std::test::*;
use tariff::Month;

/// The five quantities of a page.
fn gas_is(gas: &Gas, wanted: &mut Fields<'_>) -> Result<(), Fail> {
    wanted.is(gas.running)?;
    wanted.is(gas.statement)?;
    wanted.is(gas.operating)?;
    wanted.is(gas.carryover)?;
    wanted.is(gas.carried)
}

/// Usage and monthly quantity.
fn basis_is(basis: &Basis, wanted: &mut Fields<'_>) -> Result<(), Fail> {
    wanted.is(basis.usage)?;
    wanted.is(basis.monthly_quantity)
}

/// R S P C K, settled, day, usage, monthly quantity, both sums of excesses, the statement's usage and monthly quantity.
pub(crate) fn page_is(page: &Page, wanted: &str) -> Result<(), Fail> {
    let mut wanted = Fields::from(wanted);
    gas_is(&page.gas, &mut wanted)?;
    wanted.is(u8::from(page.settled))?;
    wanted.is(page.posted.day)?;
    basis_is(&page.month, &mut wanted)?;
    wanted.is(page.posted.daily_excess)?;
    wanted.is(page.posted.accumulated_excess)?;
    basis_is(&page.statement, &mut wanted)
}

/// Year and number.
fn month_is(month: &Month, wanted: &mut Fields<'_>) -> Result<(), Fail> {
    wanted.is(month.year())?;
    wanted.is(month.number())
}

/// Account, year, month, kind, quantity, price, cents.
fn line_is(line: &BillLine, wanted: &mut Fields<'_>) -> Result<(), Fail> {
    wanted.is(line.account)?;
    month_is(&line.month, wanted)?;
    wanted.is(line.charge.kind.number())?;
    wanted.is(line.charge.quantity)?;
    wanted.is(line.charge.price)?;
    wanted.is(line.charge.cents.count)
}

/// Year, month, giver, its component, taker, its component, quantity.
fn trade_is(trade: &Trade, wanted: &mut Fields<'_>) -> Result<(), Fail> {
    month_is(&trade.month, wanted)?;
    wanted.is(trade.giver)?;
    wanted.is(trade.gives.number())?;
    wanted.is(trade.taker)?;
    wanted.is(trade.takes.number())?;
    wanted.is(trade.quantity)
}

/// A look at the book, a line or a trade.
pub(crate) fn look(desk: &Desk<'_>, word: &str, place: usize, wanted: &str) -> Result<(), Fail> {
    let mut wanted = Fields::from(wanted);
    match word {
        "gas" => wanted.is(desk.book.gas()),
        "month" => month_is(&desk.book.running_month(), &mut wanted),
        "bills" => same(desk.bills.len(), place),
        "trades" => same(desk.trades.len(), place),
        "bill" => {
            let line = desk.bills.read(place).ok_or("no such line")?;
            line_is(&line, &mut wanted)
        }
        "trade" => {
            let trade = desk.trades.read(place).ok_or("no such trade")?;
            trade_is(&trade, &mut wanted)
        }
        _ => Err(Fail::new("no such word")),
    }
}
