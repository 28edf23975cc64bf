// Folding a member into its agent.
ghost use Rattle.std.specs.Prelude.{◌≡◌};
ghost use Rattle.tally.specs.Tallies.{added, emptied};
ghost use Rattle.tally.specs.Meanings.{tally_of, Counts};
ghost use Rattle.tally.specs.Steps.{cleared, CountsBut};

use crate::tally::Tally;
use crate::uncounted::Uncounted;

impl Tally {
    /// Adds the member's number to the agent's, and leaves the member nothing.
    pub(crate) fn fold(&mut self, member: u8, agent: u8) -> Result<(), Uncounted>
        ensures { Counts self.old result self.new (record { number = emptied member (added agent ((tally_of self.old).number member) (tally_of self.old).number); offers = (tally_of self.old).offers }) }
    {
        self.carry(member, agent)?;
        self.clear(member);
        Ok(())
    }

    /// Adds the member's number to the agent's, unless both are one account.
    fn carry(&mut self, member: u8, agent: u8) -> Result<(), Uncounted>
        ensures { CountsBut member self.old result self.new (record { number = emptied member (added agent ((tally_of self.old).number member) (tally_of self.old).number); offers = (tally_of self.old).offers }) }
    {
        if member == agent {
            return Ok(());
        }
        let sum = self
            .numbers
            .grown(agent, i128::from(self.numbers.of(member)))?;
        self.numbers.put(agent, sum);
        Ok(())
    }

    /// Leaves the account nothing.
    fn clear(&mut self, account: u8)
        ensures { tally_of self.new ≡ cleared account (tally_of self.old) }
    {
        self.numbers.put(account, 0);
    }
}
