// The task `prices`: from a price file to each month's card.
use crate::month_cards::{MonthCard, Problem, month_card};
use crate::price_file::{Entry, HEADER, Misread, read_row};
use crate::prices_report::{print_header, print_month};
use crate::request::Layout;
use std::collections::BTreeMap;
use std::process::ExitCode;
use std::{fs, io};
use tariff::{Fault, Month};
use thiserror::Error;

/// The rows of each month, in the order of the file.
type Months = BTreeMap<Month, Vec<Entry>>;

/// The card of each month, or its refusal, in the order of the calendar.
type Cards = Vec<(Month, Result<MonthCard, Fault>)>;

/// What is wrong with a price file, in words that follow the file's name and a colon.
#[derive(Clone, Copy, Debug, Error)]
enum Wrong<'a> {
    #[error("1: the first line is not '{header}'", header = HEADER)]
    Header,
    #[error("{0}: {1}")]
    Row(usize, Misread<'a>),
    #[error(transparent)]
    Month(Problem),
}

/// Says what is wrong with a file.
// At once, and no list of all that is wrong: a file of bad rows alone, however long, wants no more memory than its text.
fn tell(rt: &HostRuntime, file: &str, why: &Wrong<'_>) -> io::Result<()> {
    eprintln!(rt; "settle: {file}:{why}")
}

/// The rows below the header, by month; an empty one is passed over. Each bad one is told, and where there is one there are no months.
fn read_rows(rt: &HostRuntime, file: &str, text: &str) -> io::Result<Option<Months>> {
    let mut months = Some(BTreeMap::new(rt.alloc()));
    for (line, row) in (1usize..).zip(text.lines()).skip(1) {
        if row.is_empty() {
            continue;
        }
        match read_row(line, row) {
            Ok(entry) => keep(rt, &mut months, entry)?,
            Err(why) => {
                months = None;
                tell(rt, file, &Wrong::Row(line, why))?;
            }
        }
    }
    Ok(months)
}

/// Keeps a row with its month's, unless one before it is bad.
fn keep(rt: &HostRuntime, months: &mut Option<Months>, entry: Entry) -> io::Result<()> {
    if let Some(months) = months {
        months
            .entry(entry.month)?
            .or_insert(Vec::new(rt.alloc()))
            .push(entry)?;
    }
    Ok(())
}

/// The card of each month that has rows. Each month of which no card can be made is told, and where there is one there are no cards.
fn make_cards(rt: &HostRuntime, file: &str, months: &Months) -> io::Result<Option<Cards>> {
    let mut cards = Some(Vec::new(rt.alloc()));
    for (month, entries) in months {
        match month_card(*month, entries.as_slice()) {
            Ok(card) => if let Some(cards) = &mut cards {
                cards.push((*month, card))?;
            },
            Err(why) => {
                cards = None;
                tell(rt, file, &Wrong::Month(why))?;
            }
        }
    }
    Ok(cards)
}

/// Prints the cards, and says of each refused one why; a refused card makes the answer a failure.
fn print_cards(
    rt: &HostRuntime,
    file: &str,
    layout: Layout,
    cards: &Cards,
) -> io::Result<ExitCode> {
    print_header(rt, layout)?;
    for (month, card) in cards {
        print_month(rt, layout, *month, card)?;
        if let Err(fault) = card {
            eprintln!(rt; "settle: {file}: {month}: {fault}")?;
        }
    }
    if cards.iter().any(|(_, card)| card.is_err()) {
        return Ok(ExitCode::FAILURE);
    }
    Ok(ExitCode::SUCCESS)
}

/// Reads a price file and prints each month's card with its working; nothing is printed where a row is bad. What is wrong is told, and
/// then the answer is a failure.
pub(crate) fn run_prices(rt: &HostRuntime, file: &str, layout: Layout) -> io::Result<ExitCode> {
    // A match, and no `?`: an unread file is told here, and the program then ends as it does for a wrong one.
    let text = match fs::read_to_string(rt, file) {
        Ok(text) => text,
        Err(why) => {
            eprintln!(rt; "settle: {file}: {why}")?;
            return Ok(ExitCode::FAILURE);
        }
    };
    if text.lines().next() != Some(HEADER) {
        tell(rt, file, &Wrong::Header)?;
        return Ok(ExitCode::FAILURE);
    }
    let Some(months) = read_rows(rt, file, text.as_str())? else {
        return Ok(ExitCode::FAILURE);
    };
    let Some(cards) = make_cards(rt, file, &months)? else {
        return Ok(ExitCode::FAILURE);
    };
    print_cards(rt, file, layout, &cards)
}
