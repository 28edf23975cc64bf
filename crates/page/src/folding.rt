// Folding: a noncore member's page is added to a noncore agent's, and the member is retired.
ghost use Rattle.std.specs.Prelude.{◌≡◌, ◌+ℤ◌, if◌then◌else◌, Some, None};
ghost use Rattle.tariff.specs.Faults.{answer};
ghost use Rattle.page.specs.Folding.{joined_gas, joined_basis, joined_posted, joined, retired, past_gas, past_basis, past_posted, past_page, unlike, folding_answer, page_folded};
ghost use Rattle.page.specs.Limits.{past};

use crate::limits::{MOST_A_MONTH, MOST_EXCESS, both, sum, within};
use crate::page::{Basis, Gas, Page, Posted};
use records::Status;
use tariff::{Fault, Row};

// By reference, since of ten numbers behind references that a body reads itself, a proof knows only eight to fit.
/// Two quantities together, where they keep the limit.
fn pair(one: &i32, other: &i32) -> Option<i32>
    ensures { result ≡ (if past (one.now +ℤ other.now) then None else Some (one.now +ℤ other.now)) }
{
    within(both(one, other))
}

impl Gas {
    /// Every quantity with its like, where all keep the limit.
    fn with(&self, other: &Gas) -> Option<Gas>
        ensures { result ≡ (if past_gas (joined_gas self.now other.now) then None else Some (joined_gas self.now other.now)) }
    {
        Some(Gas {
            running: pair(&self.running, &other.running)?,
            statement: pair(&self.statement, &other.statement)?,
            operating: pair(&self.operating, &other.operating)?,
            carryover: pair(&self.carryover, &other.carryover)?,
            carried: pair(&self.carried, &other.carried)?,
        })
    }
}

impl Basis {
    fn with(&self, other: &Basis) -> Option<Basis>
        ensures { result ≡ (if past_basis (joined_basis self.now other.now) then None else Some (joined_basis self.now other.now)) }
    {
        Some(Basis {
            usage: sum(MOST_A_MONTH, self.usage, other.usage)?,
            monthly_quantity: sum(MOST_A_MONTH, self.monthly_quantity, other.monthly_quantity)?,
        })
    }
}

impl Posted {
    fn with(&self, other: &Posted) -> Option<Posted>
        ensures { result ≡ (if past_posted (joined_posted self.now other.now) then None else Some (joined_posted self.now other.now)) }
    {
        Some(Posted {
            day: self.day,
            daily_excess: sum(MOST_EXCESS, self.daily_excess, other.daily_excess)?,
            accumulated_excess: sum(
                MOST_EXCESS,
                self.accumulated_excess,
                other.accumulated_excess,
            )?,
        })
    }
}

impl Page {
    fn elects_unlike(&self, other: &Page) -> bool
        ensures { result ≡ unlike self.now other.now }
    {
        self.election != other.election
    }

    /// The page with every quantity of a member's page, where all keep their limits.
    fn with(&self, member: &Page) -> Option<Page>
        ensures { result ≡ (if past_page (joined self.now member.now) then None else Some (joined self.now member.now)) }
    {
        Some(Page {
            settled: self.settled && member.settled,
            gas: self.gas.with(&member.gas)?,
            month: self.month.with(&member.month)?,
            posted: self.posted.with(&member.posted)?,
            statement: self.statement.with(&member.statement)?,
            ..*self
        })
    }

    /// Empties the page of a member that was folded.
    fn retire(&mut self)
        ensures { self.new ≡ retired self.old }
    {
        *self = Page {
            status: Status::Folded,
            kind: self.kind,
            election: self.election,
            settled: true,
            ..Page::blank()
        };
    }

    /// Folds this member's page into an agent's: the page is retired, and the agent's page with all of its quantities is given.
    pub fn fold(&mut self, member: u8, agent: u8, agents: &Page) -> Result<Page, Fault>
        ensures answer { answer (λ x. x) result ≡ folding_answer member self.old agent agents.now }
        ensures page_after { self.new ≡ page_folded member self.old agent agents.now }
    {
        if !self.is_open() {
            return Err(Fault::by_book(Row::NotOpen, Some(member)));
        }
        if !agents.is_open() {
            return Err(Fault::by_book(Row::NotOpen, Some(agent)));
        }
        if self.is_core() || self.elects_unlike(agents) || member == agent {
            return Err(Fault::by_book(Row::WrongKind, Some(member)));
        }
        if agents.is_core() {
            return Err(Fault::by_book(Row::WrongKind, Some(agent)));
        }
        if self.posted.day > 0 {
            return Err(Fault::by_book(Row::WrongDay, Some(member)));
        }
        if agents.posted.day > 0 {
            return Err(Fault::by_book(Row::WrongDay, Some(agent)));
        }
        let joined = agents
            .with(self)
            .ok_or(Fault::by_book(Row::PastLimit, Some(agent)))?;
        self.retire();
        Ok(joined)
    }
}
