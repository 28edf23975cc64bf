// Folding a member's page into an agent's.
ghost use Rattle.std.specs.Prelude.{◌≡◌};
ghost use Rattle.records.specs.Refusals.{said};
ghost use Rattle.ledger.specs.Calls.{folding};

use crate::ledger::{Ledger, place_in};
use tariff::Fault;

impl Ledger {
    /// Adds every quantity of a member's page to an agent's page, and retires the member.
    pub fn fold(&mut self, member: u8, agent: u8) -> Result<(), Fault>
        ensures answer { said result ≡ (folding self.old member agent).answer }
        ensures ledger_after { self.new ≡ (folding self.old member agent).ledger }
    {
        self.fold_page(member, agent)
    }

    // Apart from `fold`, so that one line says who is folded into whom.
    /// Folds the page of a member into that of an agent, if both are accounts.
    fn fold_page(&mut self, member: u8, agent: u8) -> Result<(), Fault>
        ensures answer { said result ≡ (folding self.old member agent).answer }
        ensures ledger_after { self.new ≡ (folding self.old member agent).ledger }
    {
        let member_place = place_in(&self.pages, member)?;
        let agent_place = place_in(&self.pages, agent)?;
        let agents = self.pages[agent_place];
        let joined = self.pages[member_place].fold(member, agent, &agents)?;
        self.pages[agent_place] = joined;
        Ok(())
    }
}
