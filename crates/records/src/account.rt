// What an account is: a noncore agent or a core group, with an elected option, open or not.
ghost use Rattle.std.specs.Prelude.{◌≡◌, Some};
ghost use Rattle.records.specs.Accounts.{kind_number, kind_text, kind_of, election_number, election_of};
ghost use Rattle.records.specs.Numbered.{numbered};

use crate::numbered::numbered;
use std::fmt;
use tariff::NoSuch;

/// A noncore agent or a core group.
#[derive(Clone, Copy, PartialEq, Eq)]
pub enum Kind {
    Noncore = 1,
    Core = 2,
}

impl Kind {
    /// The kind with a number: 2 is a core group, any other number is taken for noncore.
    // Beside `try_from`, since it can't fail.
    pub fn of(number: u8) -> Kind
        ensures { result ≡ kind_of number }
    {
        Kind::try_from(number).unwrap_or(Kind::Noncore)
    }

    pub fn number(&self) -> u8
        ensures { result ≡ kind_number self.now }
    {
        *self as u8
    }
}

impl fmt::Display for Kind {
    ghost output = { λ k. Some (kind_text k) };

    fn fmt<W: fmt::Write>(&self, f: &mut fmt::Formatter<W>) -> fmt::Result {
        f.pad(match self {
            Kind::Noncore => "noncore",
            Kind::Core => "core group",
        })
    }
}

/// The kind with a number.
impl TryFrom<u8> for Kind {
    type Error = NoSuch;

    ghost try_from_gives = { λ number r. r ≡ numbered kind_of number };

    fn try_from(number: u8) -> Result<Kind, NoSuch> {
        numbered(number, Kind::Noncore, Kind::Core)
    }
}

/// The book's first or second option.
#[derive(Clone, Copy, PartialEq, Eq)]
pub enum Election {
    First = 1,
    Second = 2,
}

impl Election {
    /// The election with a number: 2 is the second option, any other number is taken for the first.
    // Beside `try_from`, since it can't fail.
    pub fn of(number: u8) -> Election
        ensures { result ≡ election_of number }
    {
        Election::try_from(number).unwrap_or(Election::First)
    }

    pub fn number(&self) -> u8
        ensures { result ≡ election_number self.now }
    {
        // Its own words, so that an edit of one number can name this line or that of `Kind`.
        let election = *self;
        election as u8
    }
}

/// The election with a number.
impl TryFrom<u8> for Election {
    type Error = NoSuch;

    ghost try_from_gives = { λ number r. r ≡ numbered election_of number };

    fn try_from(number: u8) -> Result<Election, NoSuch> {
        numbered(number, Election::First, Election::Second)
    }
}

/// Whether an account number was never used, is open, or was folded into an agent's.
#[derive(Clone, Copy, PartialEq, Eq)]
pub enum Status {
    Unused,
    Open,
    Folded,
}
