// Closing: the month's excesses and credits are billed in account order, and every page is turned.
ghost use Rattle.std.specs.Prelude.{◌≡◌, [], map, length, if◌then◌else◌, nat_lt, position};
ghost use Rattle.cards.specs.declared.terms.Terms.{Terms};
ghost use Rattle.page.specs.Closing.{behind, unsettled, turned, all_lines};
ghost use Rattle.records.specs.Refusals.{said};
ghost use Rattle.register.specs.Registers.{free, Wrote};
ghost use Rattle.ledger.specs.Calls.{closing};

use crate::ledger::Ledger;
use balancing::BalancingOption;
use cards::{Card, Terms};
use page::{Credits, Options, Page};
use records::BillLine;
use register::{Full, Register};
use tariff::{Fault, Row};

// Each search has a function of its own, whose clause says what it finds: with the searches inside `close` its proof did not close. One
// function with the test as a closure is no plainer: its clause would have to tell of the closure what these say of a page.

/// The lowest account with days missing, if there is one.
fn lowest_behind(pages: &[Page; 64], days: u8) -> Option<usize>
    ensures { result ≡ position (behind days) pages.now }
{
    pages.iter().position(|page| page.is_behind(days))
}

/// The lowest account that is not settled, if there is one.
fn lowest_unsettled(pages: &[Page; 64]) -> Option<usize>
    ensures { result ≡ position unsettled pages.now }
{
    pages.iter().position(|page| page.is_unsettled())
}

/// How many lines closing writes.
fn count_lines(pages: &[Page; 64], credits: &Credits) -> usize
    ensures { (t : Terms) → result ≡ length (all_lines t credits.now 0 pages.now) }
{
    pages
        .iter()
        .map(|page| page.closing_line_count(credits))
        .sum()
}

/// Writes the lines of all pages in account order, or none where the register has too few places.
fn bill_pages(
    pages: &[Page; 64],
    terms: &Terms,
    credits: &Credits,
    bills: &mut Register<'_, BillLine>,
) -> Result<(), Full>
    ensures answer { result ≡ (if nat_lt (length (free bills.old)) (length (all_lines terms.now credits.now 0 pages.now)) then Err (record {}) else Ok tt) }
    ensures bills_after { Wrote bills.old (if nat_lt (length (free bills.old)) (length (all_lines terms.now credits.now 0 pages.now)) then [] else all_lines terms.now credits.now 0 pages.now) bills.new }
{
    bills.room_for(count_lines(pages, credits))?;
    for (account, page) in pages.iter().enumerate() {
        page.bill_closing(account as u8, terms, credits, bills)?;
    }
    Ok(())
}

/// Turns every page.
fn turn_pages(pages: &mut [Page; 64])
    ensures { pages.new ≡ map turned pages.old }
{
    for page in pages.iter_mut() {
        page.turn();
    }
}

impl Ledger {
    /// Closes the running month with a card of it.
    pub fn close<A: BalancingOption, B: BalancingOption, C: Card>(
        &mut self,
        options: &Options<'_, A, B>,
        card: &C,
        bills: &mut Register<'_, BillLine>,
    ) -> Result<(), Fault>
        ensures answer { said result ≡ (closing (A.BalancingOption.rules options.now.first.now) (B.BalancingOption.rules options.now.second.now) (C.Card.meaning card.now) self.old (length (free bills.old))).answer }
        ensures ledger_after { self.new ≡ (closing (A.BalancingOption.rules options.now.first.now) (B.BalancingOption.rules options.now.second.now) (C.Card.meaning card.now) self.old (length (free bills.old))).ledger }
        ensures bills_after { Wrote bills.old (closing (A.BalancingOption.rules options.now.first.now) (B.BalancingOption.rules options.now.second.now) (C.Card.meaning card.now) self.old (length (free bills.old))).bills bills.new }
    {
        let terms = card.terms();
        if terms.month != self.month {
            return Err(Fault::by_book(Row::OtherMonth, None));
        }
        let next = self
            .month
            .next()
            .ok_or(Fault::by_book(Row::OtherMonth, None))?;
        if let Some(late) = lowest_behind(&self.pages, self.month.days()) {
            return Err(Fault::by_book(Row::WrongDay, Some(late as u8)));
        }
        if let Some(left) = lowest_unsettled(&self.pages) {
            return Err(Fault::by_book(Row::WrongState, Some(left as u8)));
        }
        bill_pages(&self.pages, &terms, &options.credits(), bills)?;
        turn_pages(&mut self.pages);
        self.offered = 0;
        self.month = next;
        Ok(())
    }
}
