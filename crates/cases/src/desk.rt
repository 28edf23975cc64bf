// A book with both registers, where the gas is added up apart.
use crate::amounts::{gas_in, gas_out};
use crate::fields::same;
use balancing::{Monthly, SelfBalancing, TierPrices};
use book::Book;
use cards::{AtHand, FixedCard};
use records::{BillLine, Call, Trade};
use register::Register;
use std::test::*;
use tally::Tally;
use tariff::{Fault, Month};

/// A book of Monthly at five percent (election 1) and Self-Balancing (election 2), its registers, the cashout prices of its
/// cards, the tally, the gas that entered less the gas cashed out, and what performed calls made due.
#[derive(Drop)]
pub(crate) struct Desk<'a> {
    pub(crate) book: Book<Monthly, SelfBalancing>,
    pub(crate) bills: Register<'a, BillLine>,
    pub(crate) trades: Register<'a, Trade>,
    pub(crate) prices: TierPrices,
    pub(crate) tally: Tally,
    pub(crate) gas: i128,
    pub(crate) due: i128,
}

/// A fixed card of a month.
pub(crate) fn card_of(month: &Month, prices: TierPrices) -> Result<FixedCard, Fail> {
    FixedCard::new(month.year(), month.number(), prices).map_err(Fail::new)
}

/// Tier I at 1.255 dollars over and 4 under, Tier II at a millionth over and 1,500 under.
pub(crate) fn usual_prices() -> TierPrices {
    TierPrices {
        one_over: 1_255_000,
        one_under: 4_000_000,
        two_over: 1,
        two_under: 1_500_000_000,
    }
}

impl<'a> Desk<'a> {
    /// An empty book that starts in a month.
    pub(crate) fn new(
        year: u16,
        month: u8,
        lines: &'a mut [BillLine],
        trades: &'a mut [Trade],
    ) -> Result<Desk<'a>, Fail> {
        let option = Monthly::new(5).map_err(Fail::new)?;
        let book = Book::new(option, SelfBalancing, year, month).map_err(Fail::new)?;
        // Nothing is counted yet. Not by `Default`, which a desk cannot have: it holds a book and lent memory.
        Ok(Desk {
            book,
            bills: Register::new(lines),
            trades: Register::new(trades),
            prices: usual_prices(),
            tally: Tally::new(),
            gas: 0,
            due: 0,
        })
    }

    /// Performs a call with cards of two months, and looks whether the gas on all pages is still what entered less what was cashed
    /// out, and whether a refused call wrote nothing.
    pub(crate) fn ask(
        &mut self,
        call: &Call,
        settling: &Month,
        closing: &Month,
    ) -> Result<Result<Option<u8>, Fault>, Fail> {
        let lines = self.bills.len();
        let trades = self.trades.len();
        let cards = AtHand {
            settling: card_of(settling, self.prices)?,
            closing: card_of(closing, self.prices)?,
        };
        let due = self.book.due_by(call, &cards);
        let answer = self
            .book
            .perform(call, &cards, &mut self.bills, &mut self.trades);
        if answer.is_ok() {
            let out = gas_out(self.bills.since(lines));
            self.due = self.due.wrapping_add(due);
            self.tally
                .feed(call, self.bills.since(lines))
                .map_err(Fail::new)?;
            self.gas = self.gas.wrapping_add(gas_in(call)).wrapping_sub(out);
        } else {
            same(self.bills.len(), lines)?;
            same(self.trades.len(), trades)?;
        }
        same(i128::from(self.book.gas()), self.gas)?;
        Ok(answer)
    }
}
