// A page of the book.
ghost use Rattle.std.specs.Prelude.{◌≡◌, ◌≤◌, unsigned_abs};
ghost use Rattle.page.specs.Pages.{blank, is_open, is_used, is_core, gas_on, held_in, started};

use crate::limits::both;
use records::{Component, Election, Kind, Status};

/// The five quantities of a page, in Dth; over-delivery is positive.
#[derive(Clone, Copy, Default)]
pub struct Gas {
    pub running: i32,
    pub statement: i32,
    pub operating: i32,
    pub carryover: i32,
    pub carried: i32,
}

/// What an imbalance is measured by: a month's usage and its monthly quantity.
#[derive(Clone, Copy, Default)]
pub struct Basis {
    pub usage: u32,
    pub monthly_quantity: u32,
}

/// What a month's posted days left: the last day, and both sums of excesses.
#[derive(Clone, Copy, Default)]
pub struct Posted {
    // A count of the days posted so far, 0 before the first.
    pub day: u8,
    pub daily_excess: u32,
    pub accumulated_excess: u32,
}

/// A page: the account's state, its gas, the running month and the statement.
#[derive(Clone, Copy)]
pub struct Page {
    pub status: Status,
    pub kind: Kind,
    pub election: Election,
    // A state, beside no value that it concerns: a page that is settled and one that is not have the same fields.
    pub settled: bool,
    pub gas: Gas,
    pub month: Basis,
    pub posted: Posted,
    pub statement: Basis,
}

impl Page {
    /// The page of a number that was never used.
    pub fn blank() -> Page
        ensures { result ≡ blank }
    {
        Page {
            status: Status::Unused,
            kind: Kind::Noncore,
            election: Election::First,
            settled: false,
            gas: Gas::default(),
            month: Basis::default(),
            posted: Posted::default(),
            statement: Basis::default(),
        }
    }

    /// The page of an account that opens: at zero, settled.
    pub fn start(kind: Kind, election: Election, monthly_quantity: u32) -> Page
        ensures { result ≡ started kind election monthly_quantity }
    {
        Page {
            status: Status::Open,
            kind,
            election,
            settled: true,
            month: Basis {
                usage: 0,
                monthly_quantity,
            },
            ..Page::blank()
        }
    }

    /// Whether the account is open and not folded.
    pub fn is_open(&self) -> bool
        ensures { result ≡ is_open self.now }
    {
        self.status == Status::Open
    }

    /// Whether the account's number was used: it is open, or folded.
    pub fn is_used(&self) -> bool
        ensures { result ≡ is_used self.now }
    {
        self.status != Status::Unused
    }

    /// Whether the account is a core group.
    pub fn is_core(&self) -> bool
        ensures { result ≡ is_core self.now }
    {
        self.kind == Kind::Core
    }

    /// The gas on the page: its five quantities together.
    pub fn gas_held(&self) -> i64
        ensures value { result ≡ gas_on self.now }
        ensures bound { unsigned_abs result ≤ 12884901888 }
    {
        let settled_later = both(&self.gas.running, &self.gas.statement);
        let core_only = both(&self.gas.operating, &self.gas.carryover);
        settled_later + core_only + i64::from(self.gas.carried)
    }

    /// What a component holds.
    pub fn held_in(&self, component: Component) -> i32
        ensures { result ≡ held_in component self.now.gas }
    {
        match component {
            Component::Statement => self.gas.statement,
            Component::Operating => self.gas.operating,
        }
    }
}
