// The components of a page that are traded.
ghost use Rattle.std.specs.Prelude.{◌≡◌, Some};
ghost use Rattle.records.specs.Components.{component_number, component_text, component_of};
ghost use Rattle.records.specs.Numbered.{numbered};

use crate::numbered::numbered;
use std::fmt;
use tariff::NoSuch;

/// The statement's imbalance or the operating imbalance.
#[derive(Clone, Copy, PartialEq, Eq)]
pub enum Component {
    Statement = 1,
    Operating = 2,
}

impl Component {
    /// The component with a number: 2 is the operating one, any other number is taken for the statement.
    // Beside `try_from`, since it can't fail.
    pub fn of(number: u8) -> Component
        ensures { result ≡ component_of number }
    {
        Component::try_from(number).unwrap_or(Component::Statement)
    }

    pub fn number(&self) -> u8
        ensures { result ≡ component_number self.now }
    {
        *self as u8
    }
}

impl fmt::Display for Component {
    ghost output = { λ c. Some (component_text c) };

    fn fmt<W: fmt::Write>(&self, f: &mut fmt::Formatter<W>) -> fmt::Result {
        f.pad(match self {
            Component::Statement => "statement",
            Component::Operating => "operating",
        })
    }
}

/// The component with a number.
impl TryFrom<u8> for Component {
    type Error = NoSuch;

    ghost try_from_gives = { λ number r. r ≡ numbered component_of number };

    fn try_from(number: u8) -> Result<Component, NoSuch> {
        numbered(number, Component::Statement, Component::Operating)
    }
}
