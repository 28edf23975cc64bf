// The ledger: the running month, the pages and the offers.
ghost use Rattle.std.specs.Prelude.{◌≡◌, ◌<◌, ◌≤◌, None, MatchResult};
ghost use Rattle.tariff.specs.Faults.{answer, by_book};
ghost use Rattle.tariff.specs.declared.fault.Row.TheVariants.{Field};
ghost use Rattle.ledger.specs.Ledgers.{fresh, page, reading, gas_on_all};

use crate::offer::Offer;
use page::Page;
use records::Component;
use tariff::{Fault, Month, Row};

/// The running month, 64 pages, and the offers since the last closing.
#[derive(Drop)]
pub struct Ledger {
    pub(crate) month: Month,
    pub(crate) pages: [Page; 64],
    // The book may not allocate, so that no call fails for want of memory: an array with a count, and no list that grows.
    pub(crate) offers: [Offer; 128],
    pub(crate) offered: u8,
}

/// The place of a number in a table; a number past the last place lies outside its values.
pub(crate) fn place_in<T, const PLACES: usize>(
    table: &[T; PLACES],
    number: u8,
) -> Result<usize, Fault>
    ensures { MatchResult result (λ place. (place ≡ number) × (number < PLACES)) (λ fault. (fault ≡ by_book Field None) × (PLACES ≤ number)) }
{
    let place = usize::from(number);
    if place >= table.len() {
        return Err(Fault::by_book(Row::Field, None));
    }
    Ok(place)
}

/// The gas on all pages.
fn gas_in(pages: &[Page; 64]) -> i64
    ensures { result ≡ gas_on_all pages.now }
{
    // A loop: that an iterator's sum of signed numbers fits does not prove.
    let mut total = 0;
    for page in pages {
        total += page.gas_held();
    }
    total
}

impl Ledger {
    /// An empty ledger in a running month.
    pub fn new(month: Month) -> Ledger
        ensures { result ≡ fresh month }
    {
        let offer = Offer {
            giver: 0,
            gives: Component::Statement,
            taker: 0,
            takes: Component::Statement,
            quantity: 0,
            stands: false,
        };
        Ledger {
            month,
            pages: [Page::blank(); 64],
            offers: [offer; 128],
            offered: 0,
        }
    }

    /// The running month.
    pub fn running_month(&self) -> Month
        ensures { result ≡ self.now.month }
    {
        self.month
    }

    /// The page of any number; a number past the last account has a blank one.
    pub(crate) fn page_of(&self, account: u8) -> Page
        ensures { result ≡ page self.now account }
    {
        self.pages
            .get(usize::from(account))
            .copied()
            .unwrap_or(Page::blank())
    }

    /// The page of an open account.
    pub fn page(&self, account: u8) -> Result<Page, Fault>
        ensures { answer (λ p. p) result ≡ reading self.now account }
    {
        let page = self.pages[place_in(&self.pages, account)?];
        if !page.is_open() {
            return Err(Fault::by_book(Row::NotOpen, Some(account)));
        }
        Ok(page)
    }

    /// The gas on all pages.
    pub fn gas(&self) -> i64
        ensures { result ≡ gas_on_all self.now.pages }
    {
        gas_in(&self.pages)
    }
}
