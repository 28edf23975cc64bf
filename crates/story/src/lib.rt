// A built-in story: two months of a small book, from the opening of its accounts to the second closing.
#![tactic(auto)]

mod days;
mod desk;
mod ending;
mod february;
mod march;
mod prices;

use balancing::{Monthly, SelfBalancing, Tolerance};
use book::Book;
use cards::{AtHand, Card};
use desk::Desk;
use prices::{Cards, print_cards};
use register::Register;
use report::{Journal, blank_line, blank_trade};
use std::io;
use std::process::ExitCode;
use tariff::Fault;

const INTRODUCTION: &str = "A balancing book over two months
  option 1 is Monthly within 5 percent (mark M), option 2 is Self-Balancing (mark S)
  each call is followed by its answer; quantities are in Dth, and over-delivery is positive";

/// The cards of the story, and an empty book that starts in its first month.
fn begin() -> Result<(Cards, Book<Monthly, SelfBalancing>), Fault> {
    let monthly = Monthly {
        tolerance: Tolerance::Five,
    };
    Ok((Cards::new()?, Book::new(monthly, SelfBalancing, 2026, 2)?))
}

/// The story over an empty book.
fn tell_on(rt: &HostRuntime, book: Book<Monthly, SelfBalancing>, cards: &Cards) -> io::Result<()> {
    let month = cards.january.terms().month;
    let mut lines = [blank_line(month); 32];
    let mut confirmations = [blank_trade(month); 8];
    let bills = Register::new(&mut lines);
    let trades = Register::new(&mut confirmations);
    let mut desk = Desk {
        book,
        journal: Journal::new(),
        bills,
        trades,
        cards: AtHand {
            settling: cards.january,
            closing: cards.february,
        },
    };
    february::tell(rt, &mut desk)?;
    desk.cards = AtHand {
        settling: cards.february,
        closing: cards.march,
    };
    march::tell(rt, &mut desk)?;
    ending::tell(rt, &desk)
}

/// Tells the story: every call with its answer, then every bill line, trade, page and sum.
pub fn tell(rt: &HostRuntime) -> io::Result<ExitCode> {
    // A match, and no `?`: a refusal is told here in the program's words.
    match begin() {
        Ok((cards, book)) => {
            rt.println(INTRODUCTION)?;
            print_cards(rt, &cards)?;
            tell_on(rt, book, &cards)?;
            Ok(ExitCode::SUCCESS)
        }
        Err(fault) => {
            eprintln!(rt; "storyteller: {fault}")?;
            Ok(ExitCode::FAILURE)
        }
    }
}
