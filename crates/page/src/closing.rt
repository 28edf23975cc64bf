// Closing: what it bills on a page, and how it turns the page.
ghost use Rattle.std.specs.Prelude.{◌≡◌, ℕ, ◌≤◌, ◌∷◌, [], length, pos, if◌then◌else◌, Ok, Err, nat_lt, count_by};
ghost use Rattle.cards.specs.declared.terms.Terms.{Terms};
ghost use Rattle.register.specs.Registers.{Wrote, free};
ghost use Rattle.tariff.specs.Bills.{tier_line};
ghost use Rattle.tariff.specs.declared.bill.BillKind.TheVariants.{DailyExcess, AccumulatedExcess, Credit};
ghost use Rattle.page.specs.Closing.{behind, credited, closing_lines, unsettled, turned};

use crate::billing::bill;
use crate::page::{Page, Posted};
use cards::Terms;
use records::{BillLine, Election};
use register::{Full, Register};
use tariff::{BillKind, Charge};

/// Whether the accounts of the first and of the second option earn the credit.
#[derive(Clone, Copy)]
pub struct Credits {
    pub first: bool,
    pub second: bool,
}

/// How many of the quantities are above 0.
fn count_above_zero(quantities: &[u32]) -> usize
    ensures { result ≡ count_by (λ q. nat_lt 0 q) quantities.now }
{
    quantities.iter().filter(|quantity| **quantity > 0).count()
}

impl Page {
    /// Whether days of the month are missing on an open page.
    pub fn is_behind(&self, days: u8) -> bool
        ensures { result ≡ behind days self.now }
    {
        self.is_open() && self.posted.day != days
    }

    /// Whether an open page is not settled.
    pub fn is_unsettled(&self) -> bool
        ensures { result ≡ unsettled self.now }
    {
        self.is_open() && !self.settled
    }

    /// The statement takes the running imbalance, which takes what was carried; the month starts anew, unsettled.
    pub fn turn(&mut self)
        ensures { self.new ≡ turned self.old }
    {
        if self.is_open() {
            self.settled = false;
            self.gas.statement = self.gas.running;
            self.gas.running = self.gas.carried;
            self.gas.carried = 0;
            self.statement = self.month;
            self.month.usage = 0;
            self.posted = Posted::default();
        }
    }

    /// The usage on which the credit is given.
    pub fn credited_usage(&self, credits: &Credits) -> u32
        ensures { result ≡ credited credits.now self.now }
    {
        // A match on the two fields by name: an array of two would want a number for the election.
        let earns = match self.election {
            Election::First => credits.first,
            Election::Second => credits.second,
        };
        if earns { self.month.usage } else { 0 }
    }

    /// The quantities that closing bills on an open page: both sums of excesses, then the usage on which the credit is given.
    fn billed(&self, credits: &Credits) -> [u32; 3]
        ensures { result ≡ self.now.posted.daily_excess ∷ self.now.posted.accumulated_excess ∷ credited credits.now self.now ∷ [] }
    {
        [
            self.posted.daily_excess,
            self.posted.accumulated_excess,
            self.credited_usage(credits),
        ]
    }

    /// How many lines closing writes for a page.
    pub fn closing_line_count(&self, credits: &Credits) -> usize
        ensures exact { (t : Terms) (a : ℕ) → result ≡ length (closing_lines t credits.now a self.now) }
        ensures few { result ≤ 3 }
    {
        if !self.is_open() {
            return 0;
        }
        count_above_zero(&self.billed(credits))
    }

    // The card's terms and the credits stay apart: the lines are counted from the credits alone, whatever the card is.
    /// Writes the lines of the page at closing, or none where the register has too few places.
    pub fn bill_closing(
        &self,
        account: u8,
        terms: &Terms,
        credits: &Credits,
        bills: &mut Register<'_, BillLine>,
    ) -> Result<(), Full>
        ensures answer { result ≡ (if nat_lt (length (free bills.old)) (length (closing_lines terms.now credits.now account self.now)) then Err (record {}) else Ok tt) }
        ensures bills_after { Wrote bills.old (if nat_lt (length (free bills.old)) (length (closing_lines terms.now credits.now account self.now)) then [] else closing_lines terms.now credits.now account self.now) bills.new }
    {
        if !self.is_open() {
            return Ok(());
        }
        let [daily, accumulated, usage] = self.billed(credits);
        let charges = [
            Charge::for_gas(BillKind::DailyExcess, i64::from(daily), terms.noncompliance),
            Charge::for_gas(
                BillKind::AccumulatedExcess,
                i64::from(accumulated),
                terms.noncompliance,
            ),
            Charge::for_gas(BillKind::Credit, i64::from(usage), terms.credit),
        ];
        bill(account, terms.month, &charges, bills)
    }
}
