// The tally, and what feeding it a call comes to.
ghost use Rattle.std.specs.Prelude.{◌≡◌, ◌≤◌, true, [], ◌∷◌, ◌++◌, pos, ◌-ℤ◌, neg_ℤ, unsigned_abs};
ghost use Rattle.tally.specs.Tallies.{empty, counted, fed, cashed_out};
ghost use Rattle.tally.specs.Limits.{most_moved};
ghost use Rattle.tally.specs.Meanings.{tally_of, together, Counts};
ghost use Rattle.tally.specs.Promises.{AnOfferCountsOnce};

use crate::gas::{cashed_out, imbalance};
use crate::numbers::Numbers;
use crate::offers::Offers;
use crate::uncounted::Uncounted;
use records::{BillLine, Call};

mod fold;
mod trade;

/// A number for each account, at first 0, and the offers by place.
#[derive(Clone, Copy)]
pub struct Tally {
    numbers: Numbers,
    offers: Offers,
}

impl Tally {
    /// A tally to which nothing was fed.
    pub fn new() -> Tally
        ensures starts_empty { tally_of result ≡ empty }
        ensures an_offer_counts_once { AnOfferCountsOnce }
    {
        Tally {
            numbers: Numbers::new(),
            offers: Offers::new(),
        }
    }

    /// The account's number.
    pub fn number(&self, account: u8) -> i64
        ensures { result ≡ (tally_of self.now).number account }
    {
        self.numbers.of(account)
    }

    /// All numbers together.
    pub fn total(&self) -> i128
        ensures { result ≡ together 64 (tally_of self.now).number }
    {
        self.numbers.total()
    }

    /// Counts a performed call with the bill lines that it wrote. Where the tally could not hold what comes of it, nothing changes.
    pub fn feed(&mut self, call: &Call, lines: &[BillLine]) -> Result<(), Uncounted>
        ensures { Counts self.old result self.new (fed (tally_of self.old) call.now lines.now) }
    {
        match call {
            Call::Open { .. } => Ok(()),
            Call::Set { .. } => Ok(()),
            Call::Post {
                account,
                receipts,
                usage,
                ..
            } => self.post(*account, *receipts, *usage),
            Call::Adjust { account, quantity } => self.count(*account, i128::from(*quantity)),
            Call::State { account, quantity } => self.count(*account, i128::from(*quantity)),
            Call::Offer {
                giver,
                quantity,
                ..
            } => self.offer(*giver, *quantity),
            Call::Accept { taker, place } => self.accept(*taker, *place),
            Call::Fold { member, agent } => self.fold(*member, *agent),
            Call::Settle { account, .. } => self.settle(*account, lines),
            Call::Close => self.close(),
        }
    }

    /// Adds to the account's number.
    // The bound of what a call moves, as in the clauses of `gas`.
    fn count(&mut self, account: u8, by: i128) -> Result<(), Uncounted>
        requires { unsigned_abs by ≤ most_moved }
        ensures { Counts self.old result self.new (counted (tally_of self.old) account by) }
    {
        let number = self.numbers.grown(account, by)?;
        self.numbers.put(account, number);
        Ok(())
    }

    fn post(&mut self, account: u8, receipts: u64, usage: u64) -> Result<(), Uncounted>
        ensures { Counts self.old result self.new (counted (tally_of self.old) account (pos receipts -ℤ pos usage)) }
    {
        self.count(account, imbalance(receipts, usage))
    }

    fn settle(&mut self, account: u8, lines: &[BillLine]) -> Result<(), Uncounted>
        ensures { Counts self.old result self.new (counted (tally_of self.old) account (neg_ℤ (cashed_out lines.now))) }
    {
        self.count(account, -cashed_out(lines))
    }

    fn offer(&mut self, giver: u8, quantity: u64) -> Result<(), Uncounted>
        ensures { Counts self.old result self.new (record { number = (tally_of self.old).number; offers = (tally_of self.old).offers ++ (record { giver = giver; quantity = quantity; stands = true } ∷ []) }) }
    {
        self.offers.lay(giver, quantity)
    }

    fn close(&mut self) -> Result<(), Uncounted>
        ensures { Counts self.old result self.new (record { number = (tally_of self.old).number; offers = [] }) }
    {
        self.offers.clear();
        Ok(())
    }
}
