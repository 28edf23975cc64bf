// Calls on one account's page: opening, setting, posting, adjusting, stating, settling.
ghost use Rattle.std.specs.Prelude.{◌≡◌, length};
ghost use Rattle.records.specs.Refusals.{said};
ghost use Rattle.register.specs.Registers.{free, Wrote};
ghost use Rattle.ledger.specs.Calls.{opening, setting, posting, adjusting, stating, settling};

use crate::ledger::{Ledger, place_in};
use balancing::BalancingOption;
use cards::Card;
use page::{Options, Page};
use records::{BillLine, Election, Kind};
use register::Register;
use tariff::{Fault, Row};

// Kind, election and flags come in as numbers: one outside its values is refused under row 1, and a narrower type would ask more of
// callers.
impl Ledger {
    /// Opens an account at zero, settled.
    pub fn open(
        &mut self,
        account: u8,
        kind: u8,
        election: u8,
        monthly_quantity: u64,
    ) -> Result<(), Fault>
        ensures answer { said result ≡ (opening self.old account kind election monthly_quantity).answer }
        ensures ledger_after { self.new ≡ (opening self.old account kind election monthly_quantity).ledger }
    {
        let place = place_in(&self.pages, account)?;
        let kind = Kind::try_from(kind)?;
        let election = Election::try_from(election)?;
        if self.pages[place].is_used() {
            return Err(Fault::by_book(Row::UsedBefore, Some(account)));
        }
        if monthly_quantity > 100_000_000 {
            return Err(Fault::by_book(Row::PastLimit, Some(account)));
        }
        self.pages[place] = Page::start(kind, election, monthly_quantity as u32);
        Ok(())
    }

    /// Replaces an account's monthly quantity.
    pub fn set(&mut self, account: u8, monthly_quantity: u64) -> Result<(), Fault>
        ensures answer { said result ≡ (setting self.old account monthly_quantity).answer }
        ensures ledger_after { self.new ≡ (setting self.old account monthly_quantity).ledger }
    {
        let place = place_in(&self.pages, account)?;
        self.pages[place].set(account, monthly_quantity)
    }

    /// Enters an account's next day.
    pub fn post<A: BalancingOption, B: BalancingOption>(
        &mut self,
        options: &Options<'_, A, B>,
        account: u8,
        day: u8,
        order: u8,
        receipts: u64,
        usage: u64,
    ) -> Result<(), Fault>
        ensures answer { said result ≡ (posting (A.BalancingOption.rules options.now.first.now) (B.BalancingOption.rules options.now.second.now) self.old account day order receipts usage).answer }
        ensures ledger_after { self.new ≡ (posting (A.BalancingOption.rules options.now.first.now) (B.BalancingOption.rules options.now.second.now) self.old account day order receipts usage).ledger }
    {
        let place = place_in(&self.pages, account)?;
        let days = self.month.days();
        self.pages[place].post(options, days, account, day, order, receipts, usage)
    }

    /// Adds a signed quantity to an account's running imbalance.
    pub fn adjust(&mut self, account: u8, quantity: i64) -> Result<(), Fault>
        ensures answer { said result ≡ (adjusting self.old account quantity).answer }
        ensures ledger_after { self.new ≡ (adjusting self.old account quantity).ledger }
    {
        let place = place_in(&self.pages, account)?;
        self.pages[place].adjust(account, quantity)
    }

    /// Adds a signed operating quantity to a core group's page.
    pub fn state(&mut self, account: u8, quantity: i64) -> Result<(), Fault>
        ensures answer { said result ≡ (stating self.old account quantity).answer }
        ensures ledger_after { self.new ≡ (stating self.old account quantity).ledger }
    {
        let place = place_in(&self.pages, account)?;
        self.pages[place].state(account, quantity)
    }

    /// Settles an account with a card of the statement month.
    pub fn settle<A: BalancingOption, B: BalancingOption, C: Card>(
        &mut self,
        options: &Options<'_, A, B>,
        card: &C,
        account: u8,
        clear: u8,
        bills: &mut Register<'_, BillLine>,
    ) -> Result<(), Fault>
        ensures answer { said result ≡ (settling (A.BalancingOption.rules options.now.first.now) (B.BalancingOption.rules options.now.second.now) (C.Card.meaning card.now) self.old account clear (length (free bills.old))).answer }
        ensures ledger_after { self.new ≡ (settling (A.BalancingOption.rules options.now.first.now) (B.BalancingOption.rules options.now.second.now) (C.Card.meaning card.now) self.old account clear (length (free bills.old))).ledger }
        ensures bills_after { Wrote bills.old (settling (A.BalancingOption.rules options.now.first.now) (B.BalancingOption.rules options.now.second.now) (C.Card.meaning card.now) self.old account clear (length (free bills.old))).bills bills.new }
    {
        let place = place_in(&self.pages, account)?;
        let month = self.month;
        self.pages[place].settle(options, &card.terms(), month, account, clear, bills)
    }
}
