// The scripts, played.
use crate::amounts::billed;
use crate::desk::Desk;
use crate::{scripts, year};
use balancing::{Monthly, SelfBalancing};
use book::Book;
use report::{blank_line, blank_trade};
use std::io::Eprint;
use std::process::Abort;
use std::test::*;
use tariff::Month;

/// The month of the lines and trades in places that hold none yet.
fn no_month() -> Result<Month, Fail> {
    Month::new(2000, 1).ok_or_else(|| Fail::new("no January 2000"))
}

/// Plays a script on an empty book that starts in a month.
fn plays(rt: &impl Eprint, year: u16, month: u8, script: &str) -> Result<(), Fail> {
    let mut lines = [blank_line(no_month()?); 16];
    let mut trades = [blank_trade(no_month()?); 16];
    let mut desk = Desk::new(year, month, &mut lines, &mut trades)?;
    desk.play(rt, script)
}

/// The row of the refusal of a new book that would start in a month, none where it starts.
fn refused_row(rt: &impl Abort, year: u16, month: u8) -> Result<Option<u8>, Fail> {
    let option = Monthly::new(5).map_err(Fail::new)?;
    let fault = Book::new(option, SelfBalancing, year, month).err();
    if let Some(fault) = fault {
        assert_eq!(rt; fault.layer.number(), 1);
        assert_eq!(rt; fault.account_number(), 255);
    }
    Ok(fault.map(|fault| fault.row.number()))
}

#[test]
fn starting_months(rt: HostRuntime) -> Result<(), Fail> {
    let table = [
        (1999, 12, Some(1)),
        (2000, 1, Some(1)),
        (2000, 2, None),
        (2026, 0, Some(1)),
        (2026, 13, Some(1)),
        (2099, 12, None),
        (2100, 1, Some(1)),
    ];
    for (year, month, row) in table {
        assert_eq!(rt; refused_row(&rt, year, month)?, row);
    }
    Ok(())
}

#[test]
fn opening(rt: HostRuntime) -> Result<(), Fail> {
    plays(&rt, 2026, 2, scripts::OPENING)
}

#[test]
fn days(rt: HostRuntime) -> Result<(), Fail> {
    plays(&rt, 2026, 2, scripts::DAYS)
}

#[test]
fn leap_year(rt: HostRuntime) -> Result<(), Fail> {
    plays(&rt, 2000, 2, scripts::LEAP)
}

#[test]
fn last_month(rt: HostRuntime) -> Result<(), Fail> {
    plays(&rt, 2099, 12, scripts::LAST)
}

#[test]
fn closing(rt: HostRuntime) -> Result<(), Fail> {
    plays(&rt, 2026, 2, scripts::CLOSING)
}

#[test]
fn settling(rt: HostRuntime) -> Result<(), Fail> {
    plays(&rt, 2026, 2, scripts::SETTLING)
}

#[test]
fn tiers(rt: HostRuntime) -> Result<(), Fail> {
    plays(&rt, 2026, 2, scripts::TIERS)
}

#[test]
fn carryover(rt: HostRuntime) -> Result<(), Fail> {
    plays(&rt, 2026, 2, scripts::CARRYOVER)
}

#[test]
fn trading(rt: HostRuntime) -> Result<(), Fail> {
    plays(&rt, 2026, 2, scripts::TRADING)
}

#[test]
fn offer_places(rt: HostRuntime) -> Result<(), Fail> {
    plays(&rt, 2026, 2, scripts::PLACES)
}

#[test]
fn folding(rt: HostRuntime) -> Result<(), Fail> {
    plays(&rt, 2026, 2, scripts::FOLDING)
}

#[test]
fn largest_quantities(rt: HostRuntime) -> Result<(), Fail> {
    plays(&rt, 2026, 1, scripts::LARGEST)
}

#[test]
fn short_registers(rt: HostRuntime) -> Result<(), Fail> {
    let mut lines = [blank_line(no_month()?); 2];
    let mut trades = [blank_trade(no_month()?); 1];
    let mut desk = Desk::new(2026, 2, &mut lines, &mut trades)?;
    desk.play(&rt, scripts::SHORT)
}

#[test]
fn shorter_registers(rt: HostRuntime) -> Result<(), Fail> {
    let mut lines = [blank_line(no_month()?); 1];
    let mut desk = Desk::new(2026, 2, &mut lines, &mut [])?;
    desk.play(&rt, scripts::SHORTER)
}

#[test]
fn a_year(rt: HostRuntime) -> Result<(), Fail> {
    let mut lines = [blank_line(no_month()?); 128];
    let mut trades = [blank_trade(no_month()?); 64];
    let mut desk = Desk::new(2026, 1, &mut lines, &mut trades)?;
    desk.play(&rt, year::FIRST_HALF)?;
    desk.play(&rt, year::SECOND_HALF)?;
    let billed = billed(desk.bills.since(0));
    // Not by `u128::from`, which a `usize` does not have.
    let most = desk.bills.len() as u128 * 5_000;
    assert!(rt; billed.abs_diff(desk.due) <= most);
    assert!(rt; desk.bills.read(desk.bills.len()).is_none());
    Ok(())
}
