// The number of each account.
ghost use Rattle.std.specs.Prelude.{◌≡◌, ◌≤◌, replicate, pos, ◌+ℤ◌, unsigned_abs};
ghost use Rattle.std.specs.Result.{MatchResult};
ghost use Rattle.tally.specs.Tallies.{empty};
ghost use Rattle.tally.specs.Limits.{Kept, most_moved};
ghost use Rattle.tally.specs.Meanings.{numbers_of, together};
ghost use Rattle.tally.specs.Steps.{placed};

use crate::uncounted::Uncounted;
use crate::writing::write;

/// A number for each of 64 accounts; any other account has 0.
#[derive(Clone, Copy)]
pub(crate) struct Numbers {
    held: [i64; 64],
}

/// What is held at first.
fn zeros() -> [i64; 64]
    ensures { result ≡ replicate 64 (pos 0) }
{
    [0; 64]
}

impl Numbers {
    pub(crate) fn new() -> Numbers
        ensures { numbers_of result ≡ empty.number }
    {
        Numbers { held: zeros() }
    }

    /// The account's number.
    pub(crate) fn of(&self, account: u8) -> i64
        ensures { result ≡ numbers_of self.now account }
    {
        self.held.get(usize::from(account)).copied().unwrap_or(0)
    }

    // The bound of what a call moves stands in the clauses, as in `gas`.

    /// The account's number and `by` together.
    fn sum(&self, account: u8, by: i128) -> i128
        requires { unsigned_abs by ≤ most_moved }
        ensures { result ≡ numbers_of self.now account +ℤ by }
    {
        i128::from(self.of(account)) + by
    }

    /// The account's number with `by` more, where that has a place.
    pub(crate) fn grown(&self, account: u8, by: i128) -> Result<i64, Uncounted>
        requires { unsigned_abs by ≤ most_moved }
        ensures { MatchResult result (λ n. (n ≡ numbers_of self.now account +ℤ by) × Kept account n) (λ _. Kept account (numbers_of self.now account +ℤ by) → ⊥) }
    {
        let sum = i64::try_from(self.sum(account, by)).map_err(|_| Uncounted)?;
        if account > 63 && sum != 0 {
            return Err(Uncounted);
        }
        Ok(sum)
    }

    /// Gives the account another number.
    pub(crate) fn put(&mut self, account: u8, number: i64)
        requires { Kept account number }
        ensures { numbers_of self.new ≡ placed account number (numbers_of self.old) }
    {
        write(&mut self.held, account, number);
    }

    /// All numbers together.
    pub(crate) fn total(&self) -> i128
        ensures { result ≡ together 64 (numbers_of self.now) }
    {
        // Not by `sum`, of which a proof leaves open that signed numbers stay within its type.
        let mut sum = 0;
        for number in &self.held {
            sum += i128::from(*number);
        }
        sum
    }
}
