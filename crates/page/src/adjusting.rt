// Adjusting and stating: a signed quantity joins the running or the operating imbalance.
ghost use Rattle.std.specs.Prelude.{◌≡◌};
ghost use Rattle.records.specs.Refusals.{said};
ghost use Rattle.page.specs.Adjusting.{adjusting_answer, page_adjusted, stating_answer, page_stated};

use crate::limits::together;
use crate::page::Page;
use tariff::{Fault, Row};

impl Page {
    /// Adds a signed quantity to the running imbalance.
    pub fn adjust(&mut self, account: u8, quantity: i64) -> Result<(), Fault>
        ensures answer { said result ≡ adjusting_answer self.old account quantity }
        ensures page_after { self.new ≡ page_adjusted self.old account quantity }
    {
        if !self.is_open() {
            return Err(Fault::by_book(Row::NotOpen, Some(account)));
        }
        let past_limit = Fault::by_book(Row::PastLimit, Some(account));
        self.gas.running = together(self.gas.running, quantity).ok_or(past_limit)?;
        Ok(())
    }

    /// Adds a signed operating quantity of a core group.
    pub fn state(&mut self, account: u8, quantity: i64) -> Result<(), Fault>
        ensures answer { said result ≡ stating_answer self.old account quantity }
        ensures page_after { self.new ≡ page_stated self.old account quantity }
    {
        if !self.is_open() {
            return Err(Fault::by_book(Row::NotOpen, Some(account)));
        }
        if !self.is_core() {
            return Err(Fault::by_book(Row::WrongKind, Some(account)));
        }
        if self.settled {
            return Err(Fault::by_book(Row::WrongState, Some(account)));
        }
        let past_limit = Fault::by_book(Row::PastLimit, Some(account));
        self.gas.operating = together(self.gas.operating, quantity).ok_or(past_limit)?;
        Ok(())
    }
}
