// The book, and its ten calls.
ghost use Rattle.std.specs.Prelude.{◌≡◌, length, Some};
ghost use Rattle.tariff.specs.Faults.{answer};
ghost use Rattle.tariff.specs.declared.month.Month.{Month};
ghost use Rattle.records.specs.Refusals.{said};
ghost use Rattle.register.specs.Registers.{free, Wrote};
ghost use Rattle.ledger.specs.Calls.{opening, setting, posting, adjusting, stating, offering, accepting, folding, settling, closing, statement_month};
ghost use Rattle.ledger.specs.Dues.{due_by};
ghost use Rattle.ledger.specs.Ledgers.{reading, gas_on_all};
ghost use Rattle.runs.specs.Law.{GasOnAllPages, GasOnEachPage, OffersCountOnce, OffersStandAlike, HalfACentALine};
ghost use Rattle.book.specs.Books.{starting, with_ledger};

use balancing::BalancingOption;
use cards::{AtHand, Card};
use ledger::Ledger;
use page::{Options, Page};
use records::{BillLine, Call, Trade};
use register::Register;
use tariff::{Fault, Month, Row};

/// A book of up to 64 balancing agents, each of which elects the first or the second option.
#[derive(Drop)]
pub struct Book<A: BalancingOption, B: BalancingOption> {
    first: A,
    second: B,
    ledger: Ledger,
}

/// Both options, lent together.
fn lent<'a, A, B>(first: &'a A, second: &'a B) -> Options<'a, A, B>
    ensures first { result.first.now ≡ first.now }
    ensures second { result.second.now ≡ second.now }
{
    Options { first, second }
}

/// The law of the book, which holds over every list of calls; it has no code.
// Both options apart, as a new book is given them: the law speaks of what they mean, and nothing is asked of them.
fn law_stands<A: BalancingOption, B: BalancingOption>(first: &A, second: &B)
    ensures gas_on_all_pages { (m : Month) → GasOnAllPages (A.BalancingOption.rules first.now) (B.BalancingOption.rules second.now) m }
    ensures gas_on_each_page { (m : Month) → GasOnEachPage (A.BalancingOption.rules first.now) (B.BalancingOption.rules second.now) m }
    ensures offers_count_once { OffersCountOnce }
    ensures offers_stand_alike { (m : Month) → OffersStandAlike (A.BalancingOption.rules first.now) (B.BalancingOption.rules second.now) m }
    ensures half_a_cent_a_line { (m : Month) → HalfACentALine (A.BalancingOption.rules first.now) (B.BalancingOption.rules second.now) m }
{}

impl<A: BalancingOption + Drop, B: BalancingOption + Drop> Book<A, B> {
    /// An empty book in a running month from February 2000 to December 2099.
    // The options and the month by their parts: what names no month is refused here, as row 1 of the book.
    pub fn new(first: A, second: B, year: u16, month: u8) -> Result<Self, Fault>
        ensures answer { answer (λ b. b) result ≡ starting first second year month }
        ensures gas_on_all_pages { (m : Month) → GasOnAllPages (A.BalancingOption.rules first) (B.BalancingOption.rules second) m }
        ensures gas_on_each_page { (m : Month) → GasOnEachPage (A.BalancingOption.rules first) (B.BalancingOption.rules second) m }
        ensures offers_count_once { OffersCountOnce }
        ensures offers_stand_alike { (m : Month) → OffersStandAlike (A.BalancingOption.rules first) (B.BalancingOption.rules second) m }
        ensures half_a_cent_a_line { (m : Month) → HalfACentALine (A.BalancingOption.rules first) (B.BalancingOption.rules second) m }
    {
        law_stands(&first, &second);
        let month = Month::new(year, month)
            .filter(|month| month.previous().is_some())
            .ok_or(Fault::by_book(Row::Field, None))?;
        Ok(Book {
            first,
            second,
            ledger: Ledger::new(month),
        })
    }
}

// Kinds, elections, components and flags come in as numbers: one outside its values is refused under row 1, and a narrower type would
// ask more of callers.
impl<A: BalancingOption, B: BalancingOption> Book<A, B> {
    /// The running month.
    pub fn running_month(&self) -> Month
        ensures { result ≡ self.now.ledger.month }
    {
        self.ledger.running_month()
    }

    /// The statement month, which is the month before the running one.
    pub fn statement_month(&self) -> Month
        ensures { result ≡ statement_month self.now.ledger }
    {
        self.ledger.statement_month()
    }

    /// The page of an open account.
    pub fn page(&self, account: u8) -> Result<Page, Fault>
        ensures { answer (λ p. p) result ≡ reading self.now.ledger account }
    {
        self.ledger.page(account)
    }

    /// The gas on all pages.
    pub fn gas(&self) -> i64
        ensures { result ≡ gas_on_all self.now.ledger.pages }
    {
        self.ledger.gas()
    }

    /// What a call, if performed, makes due at the prices of the cards at hand for settling and for closing, in ten-thousandths of a cent.
    pub fn due_by<C: Card, D: Card>(&self, call: &Call, cards: &AtHand<C, D>) -> i128
        ensures { result ≡ due_by (A.BalancingOption.rules self.now.first) (B.BalancingOption.rules self.now.second) self.now.ledger call.now (C.Card.meaning cards.now.settling) (D.Card.meaning cards.now.closing) }
    {
        self.ledger
            .due_by(&lent(&self.first, &self.second), call, cards)
    }

    /// Opens an account: its kind is 1 (noncore) or 2 (core group), its election 1 (the first option) or 2 (the second).
    pub fn open(
        &mut self,
        account: u8,
        kind: u8,
        election: u8,
        monthly_quantity: u64,
    ) -> Result<(), Fault>
        ensures answer { said result ≡ (opening self.old.ledger account kind election monthly_quantity).answer }
        ensures book_after { self.new ≡ with_ledger self.old (opening self.old.ledger account kind election monthly_quantity).ledger }
    {
        self.ledger.open(account, kind, election, monthly_quantity)
    }

    /// Replaces an account's monthly quantity, before the month's first day is posted.
    pub fn set(&mut self, account: u8, monthly_quantity: u64) -> Result<(), Fault>
        ensures answer { said result ≡ (setting self.old.ledger account monthly_quantity).answer }
        ensures book_after { self.new ≡ with_ledger self.old (setting self.old.ledger account monthly_quantity).ledger }
    {
        self.ledger.set(account, monthly_quantity)
    }

    /// Enters an account's next day; flag 1 is a flow order, 0 is none.
    pub fn post(
        &mut self,
        account: u8,
        day: u8,
        order: u8,
        receipts: u64,
        usage: u64,
    ) -> Result<(), Fault>
        ensures answer { said result ≡ (posting (A.BalancingOption.rules self.old.first) (B.BalancingOption.rules self.old.second) self.old.ledger account day order receipts usage).answer }
        ensures book_after { self.new ≡ with_ledger self.old (posting (A.BalancingOption.rules self.old.first) (B.BalancingOption.rules self.old.second) self.old.ledger account day order receipts usage).ledger }
    {
        self.ledger.post(
            &lent(&self.first, &self.second),
            account,
            day,
            order,
            receipts,
            usage,
        )
    }

    /// Adds a signed quantity to an account's running imbalance.
    pub fn adjust(&mut self, account: u8, quantity: i64) -> Result<(), Fault>
        ensures answer { said result ≡ (adjusting self.old.ledger account quantity).answer }
        ensures book_after { self.new ≡ with_ledger self.old (adjusting self.old.ledger account quantity).ledger }
    {
        self.ledger.adjust(account, quantity)
    }

    /// Adds a signed operating quantity to a core group's page.
    pub fn state(&mut self, account: u8, quantity: i64) -> Result<(), Fault>
        ensures answer { said result ≡ (stating self.old.ledger account quantity).answer }
        ensures book_after { self.new ≡ with_ledger self.old (stating self.old.ledger account quantity).ledger }
    {
        self.ledger.state(account, quantity)
    }

    /// Offers a quantity from a component of the giver to one of the taker (1 statement, 2 operating), and gives the offer's place.
    pub fn offer(
        &mut self,
        giver: u8,
        gives: u8,
        taker: u8,
        takes: u8,
        quantity: u64,
    ) -> Result<u8, Fault>
        ensures answer { answer (λ k. Some k) result ≡ (offering self.old.ledger giver gives taker takes quantity).answer }
        ensures book_after { self.new ≡ with_ledger self.old (offering self.old.ledger giver gives taker takes quantity).ledger }
    {
        self.ledger.offer(giver, gives, taker, takes, quantity)
    }

    /// Accepts the offer at a place, by its taker, and writes its confirmation.
    pub fn accept(
        &mut self,
        taker: u8,
        place: u8,
        trades: &mut Register<'_, Trade>,
    ) -> Result<(), Fault>
        ensures answer { said result ≡ (accepting self.old.ledger taker place (length (free trades.old))).answer }
        ensures book_after { self.new ≡ with_ledger self.old (accepting self.old.ledger taker place (length (free trades.old))).ledger }
        ensures trades_after { Wrote trades.old (accepting self.old.ledger taker place (length (free trades.old))).trades trades.new }
    {
        self.ledger.accept(taker, place, trades)
    }

    /// Adds every quantity of a noncore member's page to a noncore agent's, and retires the member.
    pub fn fold(&mut self, member: u8, agent: u8) -> Result<(), Fault>
        ensures answer { said result ≡ (folding self.old.ledger member agent).answer }
        ensures book_after { self.new ≡ with_ledger self.old (folding self.old.ledger member agent).ledger }
    {
        self.ledger.fold(member, agent)
    }

    /// Settles an account with a card of the statement month; clear flag 1 moves the whole carryover on.
    pub fn settle<C: Card>(
        &mut self,
        card: &C,
        account: u8,
        clear: u8,
        bills: &mut Register<'_, BillLine>,
    ) -> Result<(), Fault>
        ensures answer { said result ≡ (settling (A.BalancingOption.rules self.old.first) (B.BalancingOption.rules self.old.second) (C.Card.meaning card.now) self.old.ledger account clear (length (free bills.old))).answer }
        ensures book_after { self.new ≡ with_ledger self.old (settling (A.BalancingOption.rules self.old.first) (B.BalancingOption.rules self.old.second) (C.Card.meaning card.now) self.old.ledger account clear (length (free bills.old))).ledger }
        ensures bills_after { Wrote bills.old (settling (A.BalancingOption.rules self.old.first) (B.BalancingOption.rules self.old.second) (C.Card.meaning card.now) self.old.ledger account clear (length (free bills.old))).bills bills.new }
    {
        let options = lent(&self.first, &self.second);
        self.ledger.settle(&options, card, account, clear, bills)
    }

    /// Closes the running month with a card of it.
    pub fn close<C: Card>(
        &mut self,
        card: &C,
        bills: &mut Register<'_, BillLine>,
    ) -> Result<(), Fault>
        ensures answer { said result ≡ (closing (A.BalancingOption.rules self.old.first) (B.BalancingOption.rules self.old.second) (C.Card.meaning card.now) self.old.ledger (length (free bills.old))).answer }
        ensures book_after { self.new ≡ with_ledger self.old (closing (A.BalancingOption.rules self.old.first) (B.BalancingOption.rules self.old.second) (C.Card.meaning card.now) self.old.ledger (length (free bills.old))).ledger }
        ensures bills_after { Wrote bills.old (closing (A.BalancingOption.rules self.old.first) (B.BalancingOption.rules self.old.second) (C.Card.meaning card.now) self.old.ledger (length (free bills.old))).bills bills.new }
    {
        self.ledger
            .close(&lent(&self.first, &self.second), card, bills)
    }
}
