// Settling: the carryover moves on, the kept part of the statement is carried, and both tiers are billed.
ghost use Rattle.std.specs.Prelude.{◌≡◌, ◌≤◌, not, ◌&&◌, ◌||◌, [], length, if◌then◌else◌, Some, None, Ok, Err, ◌==◌, nat_le, nat_lt, unsigned_abs};
ghost use Rattle.register.specs.Registers.{Wrote, free};
ghost use Rattle.page.specs.Limits.{past};
ghost use Rattle.page.specs.Pages.{elected, is_core};
ghost use Rattle.records.specs.Refusals.{said, decided, after};
ghost use Rattle.page.specs.Settling.{joined_carryover, rest_of_carryover, moved_on, left_over, parts_of, carried_on, carrying_refusals, settled_gas, settled_page, tier_lines, large_carryover, settling_answer, page_settled, settling_lines};

use crate::billing::bill;
use crate::limits::{both, within};
use crate::options::Options;
use crate::page::{Basis, Gas, Page};
use balancing::{BalancingOption, Parts, Statement};
use cards::Terms;
use records::BillLine;
use register::{Full, Register};
use tariff::{Fault, Month, Row};

/// Writes the lines of both tiers, or none where the register has too few places.
fn bill_tiers(
    account: u8,
    terms: &Terms,
    parts: &Parts,
    bills: &mut Register<'_, BillLine>,
) -> Result<(), Full>
    ensures answer { result ≡ (if nat_lt (length (free bills.old)) (length (tier_lines terms.now account parts.now)) then Err (record {}) else Ok tt) }
    ensures bills_after { Wrote bills.old (if nat_lt (length (free bills.old)) (length (tier_lines terms.now account parts.now)) then [] else tier_lines terms.now account parts.now) bills.new }
{
    let due = terms.tiers.cash_out(parts);
    bill(account, terms.month, &[due.tier_one, due.tier_two], bills)
}

impl Gas {
    /// The carryover once the operating imbalance has joined it.
    fn joined_carryover(&self) -> i64
        ensures value { result ≡ joined_carryover self.now }
        ensures bound { unsigned_abs result ≤ 4294967296 }
    {
        both(&self.carryover, &self.operating)
    }

    /// What moves on: a twelfth of it, its fraction dropped, or all of it where it is cleared.
    fn moved_on(&self, clear: bool) -> i64
        ensures value { result ≡ moved_on clear self.now }
        ensures bound { unsigned_abs result ≤ 4294967296 }
    {
        if clear {
            return self.joined_carryover();
        }
        self.joined_carryover() / 12
    }

    /// What is left over of it then.
    fn left_over(&self, clear: bool) -> i64
        ensures { result ≡ left_over clear self.now }
    {
        self.joined_carryover() - self.moved_on(clear)
    }

    /// What is carried once what moves on and the kept part have joined it.
    fn carried_on(&self, clear: bool, parts: &Parts) -> i64
        ensures { result ≡ carried_on clear self.now parts.now }
    {
        i64::from(self.carried) + self.moved_on(clear) + i64::from(parts.kept)
    }

    /// The gas once the carryover and the kept part have moved on and the statement is empty, within the limits.
    fn settled(&self, clear: bool, parts: &Parts) -> Option<Gas>
        ensures { result ≡ (if past (left_over clear self.now) || past (carried_on clear self.now parts.now) then None else Some (settled_gas clear self.now parts.now)) }
    {
        Some(Gas {
            running: self.running,
            carryover: within(self.left_over(clear))?,
            carried: within(self.carried_on(clear, parts))?,
            ..Gas::default()
        })
    }
}

impl Page {
    /// The parts of the statement's imbalance under the elected option.
    pub fn parts<A: BalancingOption, B: BalancingOption>(
        &self,
        options: &Options<'_, A, B>,
    ) -> Parts
        ensures { result ≡ parts_of (elected (A.BalancingOption.rules options.now.first.now) (B.BalancingOption.rules options.now.second.now) self.now) self.now }
    {
        let Basis {
            usage,
            monthly_quantity,
        } = self.statement;
        options.split(
            self.election,
            &Statement {
                usage,
                monthly_quantity,
                imbalance: self.gas.statement,
            },
        )
    }

    /// Whether a page that is not a core group's is to be cleared.
    fn clears_noncore(&self, clear: bool) -> bool
        ensures { result ≡ (clear && not (is_core self.now)) }
    {
        clear && !self.is_core()
    }

    /// Whether a carryover is to be cleared whose rest is too large for it.
    fn clears_large(&self, clear: bool) -> bool
        ensures { result ≡ (clear && nat_le large_carryover (unsigned_abs (rest_of_carryover self.now.gas))) }
    {
        clear && self.gas.left_over(false).unsigned_abs() >= 5_000
    }

    /// Carries the parts of the statement on and bills both tiers, within the limits and where the register has room.
    fn carry_on(
        &mut self,
        account: u8,
        clear: bool,
        terms: &Terms,
        parts: &Parts,
        bills: &mut Register<'_, BillLine>,
    ) -> Result<(), Fault>
        ensures answer { said result ≡ decided (carrying_refusals clear terms.now self.old account parts.now (length (free bills.old))) }
        ensures page_after { self.new ≡ after (decided (carrying_refusals clear terms.now self.old account parts.now (length (free bills.old)))) (settled_page clear self.old parts.now) self.old }
        ensures bills_after { Wrote bills.old (after (decided (carrying_refusals clear terms.now self.old account parts.now (length (free bills.old)))) (tier_lines terms.now account parts.now) []) bills.new }
    {
        let gas = self
            .gas
            .settled(clear, parts)
            .ok_or(Fault::by_book(Row::PastLimit, Some(account)))?;
        bill_tiers(account, terms, parts, bills)?;
        *self = Page {
            settled: true,
            gas,
            statement: Basis::default(),
            ..*self
        };
        Ok(())
    }

    // The flag is a number: one past 1 is refused under row 1, and a `bool` would ask more of callers.
    /// Settles the account with a card of the month before the running one.
    pub fn settle<A: BalancingOption, B: BalancingOption>(
        &mut self,
        options: &Options<'_, A, B>,
        terms: &Terms,
        month: Month,
        account: u8,
        clear: u8,
        bills: &mut Register<'_, BillLine>,
    ) -> Result<(), Fault>
        ensures answer { said result ≡ settling_answer (elected (A.BalancingOption.rules options.now.first.now) (B.BalancingOption.rules options.now.second.now) self.old) terms.now self.old month account clear (length (free bills.old)) }
        ensures page_after { self.new ≡ page_settled (elected (A.BalancingOption.rules options.now.first.now) (B.BalancingOption.rules options.now.second.now) self.old) terms.now self.old month account clear (length (free bills.old)) }
        ensures bills_after { Wrote bills.old (settling_lines (elected (A.BalancingOption.rules options.now.first.now) (B.BalancingOption.rules options.now.second.now) self.old) terms.now self.old month account clear (length (free bills.old))) bills.new }
    {
        if clear > 1 {
            return Err(Fault::by_book(Row::Field, None));
        }
        let clear = clear == 1;
        if !self.is_open() {
            return Err(Fault::by_book(Row::NotOpen, Some(account)));
        }
        if self.clears_noncore(clear) {
            return Err(Fault::by_book(Row::WrongKind, Some(account)));
        }
        if !terms.month.is_followed_by(month) {
            return Err(Fault::by_book(Row::OtherMonth, None));
        }
        if self.settled {
            return Err(Fault::by_book(Row::WrongState, Some(account)));
        }
        if self.clears_large(clear) {
            return Err(Fault::by_book(Row::LargeCarryover, Some(account)));
        }
        let parts = self.parts(options);
        self.carry_on(account, clear, terms, &parts, bills)
    }
}
