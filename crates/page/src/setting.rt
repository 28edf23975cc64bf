// Setting: another monthly quantity, before the month's first day is posted.
ghost use Rattle.std.specs.Prelude.{◌≡◌};
ghost use Rattle.records.specs.Refusals.{said};
ghost use Rattle.page.specs.Setting.{setting_answer, page_set};

use crate::limits::{MOST_A_MONTH, at_most};
use crate::page::Page;
use tariff::{Fault, Row};

impl Page {
    /// Replaces the monthly quantity.
    pub fn set(&mut self, account: u8, monthly_quantity: u64) -> Result<(), Fault>
        ensures answer { said result ≡ setting_answer self.old account monthly_quantity }
        ensures page_after { self.new ≡ page_set self.old account monthly_quantity }
    {
        if !self.is_open() {
            return Err(Fault::by_book(Row::NotOpen, Some(account)));
        }
        if self.posted.day > 0 {
            return Err(Fault::by_book(Row::WrongDay, Some(account)));
        }
        let past_limit = Fault::by_book(Row::PastLimit, Some(account));
        self.month.monthly_quantity = at_most(MOST_A_MONTH, monthly_quantity).ok_or(past_limit)?;
        Ok(())
    }
}
