// Why a call is turned down.
ghost use Rattle.std.specs.Prelude.{◌≡◌, None, Some};
ghost use Rattle.tariff.specs.declared.fault.Row.TheVariants.{Field};
ghost use Rattle.tariff.specs.Faults.{row_number, layer_number, account_number, by_book, by_card, reason_text, layer_text, fault_text};

use std::fmt;

/// The number that stands for no account, where an account is told by its number.
// Public, and so kept; only `account_number` says it.
pub const NO_ACCOUNT: u8 = 255;

/// The reasons for a refusal, in the order in which they are tested.
#[derive(Clone, Copy, Debug)]
pub enum Row {
    Field = 1,
    NotOpen = 2,
    UsedBefore = 3,
    WrongKind = 4,
    NoOffer = 5,
    OtherMonth = 6,
    WrongDay = 7,
    WrongState = 8,
    LargeCarryover = 9,
    PastLimit = 10,
    NoOfferPlace = 11,
    NoRegisterPlace = 12,
    BadHeader = 13,
    BadRecord = 14,
    NoSupply = 15,
}

impl Row {
    pub fn number(&self) -> u8
        ensures { result ≡ row_number self.now }
    {
        *self as u8
    }
}

/// The layer that refused.
#[derive(Clone, Copy, Debug)]
pub enum Layer {
    Book = 1,
    Card = 2,
    Register = 3,
    Batch = 4,
}

impl Layer {
    pub fn number(&self) -> u8
        ensures { result ≡ layer_number self.now }
    {
        // Its own words, so that an edit of one number can name this line or that of `Row`.
        let layer = *self;
        layer as u8
    }
}

/// A refusal: why, by which layer, and over which account, if it concerns one.
#[derive(Clone, Copy, Debug)]
pub struct Fault {
    pub row: Row,
    pub layer: Layer,
    pub account: Option<u8>,
}

impl Fault {
    /// A refusal by the book.
    pub fn by_book(row: Row, account: Option<u8>) -> Fault
        ensures { result ≡ by_book row account }
    {
        Fault {
            row,
            layer: Layer::Book,
            account,
        }
    }

    /// A refusal in making a series or a card. It concerns no account.
    pub fn by_card(row: Row) -> Fault
        ensures { result ≡ by_card row }
    {
        Fault {
            row,
            layer: Layer::Card,
            account: None,
        }
    }

    /// The account's number, and `NO_ACCOUNT` where the refusal concerns none.
    pub fn account_number(&self) -> u8
        ensures { result ≡ account_number self.now.account }
    {
        self.account.unwrap_or(NO_ACCOUNT)
    }
}

/// A number stands for none of the values that a field has.
#[derive(Clone, Copy, PartialEq, Eq)]
pub struct NoSuch;

impl From<NoSuch> for Fault {
    ghost from_gives = { λ _ f. f ≡ by_book Field None };

    fn from(_none: NoSuch) -> Fault {
        Fault::by_book(Row::Field, None)
    }
}

/// The reason, as a clerk would put it.
impl fmt::Display for Row {
    ghost output = { λ r. Some (reason_text r) };

    fn fmt<W: fmt::Write>(&self, f: &mut fmt::Formatter<W>) -> fmt::Result {
        f.pad(match self {
            Row::Field => "a field, a tolerance or a starting month lies outside its values",
            Row::NotOpen => "the account is not open, or is folded into another",
            Row::UsedBefore => "the account number was used before",
            Row::WrongKind => "the accounts are of a kind that this call does not take",
            Row::NoOffer => "no open offer to this account stands at the place",
            Row::OtherMonth =>
                "a card or a series is of another month, or the last month would be closed",
            Row::WrongDay =>
                "it is not the day for this: a day is out of turn, posted already or missing",
            Row::WrongState => "the page is settled already, or is not settled yet",
            Row::LargeCarryover => "the carryover is too large to be cleared",
            Row::PastLimit => "a quantity or a price passes its limit",
            Row::NoOfferPlace => "all places for offers are taken until the next closing",
            Row::NoRegisterPlace => "the register has fewer places than lines to write",
            Row::BadHeader => "the batch's header is short or wrong",
            Row::BadRecord => "a record's letter is unknown, or the record is cut short",
            Row::NoSupply => "both supply amounts are zero",
        })
    }
}

impl fmt::Display for Layer {
    ghost output = { λ l. Some (layer_text l) };

    fn fmt<W: fmt::Write>(&self, f: &mut fmt::Formatter<W>) -> fmt::Result {
        f.pad(match self {
            Layer::Book => "book",
            Layer::Card => "card",
            Layer::Register => "register",
            Layer::Batch => "batch",
        })
    }
}

impl fmt::Display for Fault {
    ghost output = { λ f. Some (fault_text f) };

    fn fmt<W: fmt::Write>(&self, f: &mut fmt::Formatter<W>) -> fmt::Result {
        let number = self.row.number();
        let why = self.row;
        let layer = self.layer;
        match self.account {
            Some(account) if account != NO_ACCOUNT => {
                write!(f, "refusal {number} ({layer}, account {account}): {why}")
            }
            _ => write!(f, "refusal {number} ({layer}): {why}"),
        }
    }
}
