// Posting: the next day of the running month.
ghost use Rattle.std.specs.Prelude.{◌≡◌, ℕ, if◌then◌else◌, Some, None};
ghost use Rattle.balancing.specs.Rules.{order_of};
ghost use Rattle.page.specs.Limits.{past};
ghost use Rattle.page.specs.Pages.{elected};
ghost use Rattle.page.specs.Posting.{running_after, out_of_turn, past_day, entered, posting_answer, page_posted};
ghost use Rattle.records.specs.Refusals.{said};

use crate::limits::{MOST_A_DAY, MOST_A_MONTH, MOST_EXCESS, at_most, sum, within};
use crate::options::Options;
use crate::page::{Basis, Gas, Page, Posted};
use balancing::{BalancingOption, FlowOrder, GasDay};
use records::outside;
use tariff::{Fault, Row};

impl Page {
    fn is_out_of_turn(&self, days: u8, day: u8) -> bool
        ensures { result ≡ out_of_turn self.now days day }
    {
        u32::from(day) != u32::from(self.posted.day) + 1 || day > days
    }

    /// The running imbalance with a day's figures, where it keeps the limit.
    fn running_with(&self, receipts: u32, usage: u32) -> Option<i32>
        ensures { result ≡ (if past (running_after self.now receipts usage) then None else Some (running_after self.now receipts usage)) }
    {
        within(i64::from(self.gas.running) + (i64::from(receipts) - i64::from(usage)))
    }

    /// The page with a day entered, where every quantity keeps its limit.
    fn with_day<A: BalancingOption, B: BalancingOption>(
        &self,
        options: &Options<'_, A, B>,
        day: u8,
        order: FlowOrder,
        receipts: u32,
        usage: u32,
    ) -> Option<Page>
        ensures { (flag : ℕ) → order ≡ order_of flag → result ≡ (if past_day (elected (A.BalancingOption.rules options.now.first.now) (B.BalancingOption.rules options.now.second.now) self.now) self.now flag receipts usage then None else Some (entered (elected (A.BalancingOption.rules options.now.first.now) (B.BalancingOption.rules options.now.second.now) self.now) self.now day flag receipts usage)) }
    {
        let running = self.running_with(receipts, usage)?;
        let used = sum(MOST_A_MONTH, self.month.usage, usage)?;
        let excess = options.excess(
            self.election,
            &GasDay {
                receipts,
                usage,
                order,
                monthly_quantity: self.month.monthly_quantity,
                accumulated: running,
            },
        );
        Some(Page {
            gas: Gas {
                running,
                ..self.gas
            },
            month: Basis {
                usage: used,
                ..self.month
            },
            posted: Posted {
                day,
                daily_excess: sum(MOST_EXCESS, self.posted.daily_excess, excess.daily)?,
                accumulated_excess: sum(
                    MOST_EXCESS,
                    self.posted.accumulated_excess,
                    excess.accumulated,
                )?,
            },
            ..*self
        })
    }

    // Day and flag are numbers: one outside its values is refused under row 1, and a narrower type would ask more of callers.
    /// Enters the next day of a month with so many days.
    pub fn post<A: BalancingOption, B: BalancingOption>(
        &mut self,
        options: &Options<'_, A, B>,
        days: u8,
        account: u8,
        day: u8,
        order: u8,
        receipts: u64,
        usage: u64,
    ) -> Result<(), Fault>
        ensures answer { said result ≡ posting_answer (elected (A.BalancingOption.rules options.now.first.now) (B.BalancingOption.rules options.now.second.now) self.old) self.old days account day order receipts usage }
        ensures page_after { self.new ≡ page_posted (elected (A.BalancingOption.rules options.now.first.now) (B.BalancingOption.rules options.now.second.now) self.old) self.old days account day order receipts usage }
    {
        if outside(1, 31, day) {
            return Err(Fault::by_book(Row::Field, None));
        }
        let order = FlowOrder::try_from(order)?;
        if !self.is_open() {
            return Err(Fault::by_book(Row::NotOpen, Some(account)));
        }
        if self.is_out_of_turn(days, day) {
            return Err(Fault::by_book(Row::WrongDay, Some(account)));
        }
        let past_limit = Fault::by_book(Row::PastLimit, Some(account));
        let receipts = at_most(MOST_A_DAY, receipts).ok_or(past_limit)?;
        let usage = at_most(MOST_A_DAY, usage).ok_or(past_limit)?;
        *self = self
            .with_day(options, day, order, receipts, usage)
            .ok_or(past_limit)?;
        Ok(())
    }
}
