// A call in words, with all its fields as they were handed in.
use crate::names::{ComponentNumber, KindNumber, clear_name};
use records::Call;
use std::fmt;

/// What a day's flag adds to the words: nothing where it is 0.
#[derive(Drop)]
struct DayFlag(u8);

impl fmt::Display for DayFlag {
    fn fmt<W: fmt::Write>(&self, f: &mut fmt::Formatter<W>) -> fmt::Result {
        match self.0 {
            0 => Ok(()),
            1 => write!(f, ", flow order"),
            flag => write!(f, ", flag {flag} (no such flag)"),
        }
    }
}

/// A call, printed in words.
#[derive(Clone, Copy)]
pub struct InWords {
    pub call: Call,
}

impl fmt::Display for InWords {
    fn fmt<W: fmt::Write>(&self, f: &mut fmt::Formatter<W>) -> fmt::Result {
        match self.call {
            Call::Open {
                account,
                kind,
                election,
                monthly_quantity,
            } => {
                let name = KindNumber(kind);
                write!(
                    f,
                    "open account {account}: kind {kind} ({name}), option {election}, monthly quantity {monthly_quantity}"
                )
            }
            Call::Set {
                account,
                monthly_quantity,
            } => write!(
                f,
                "set account {account}: monthly quantity {monthly_quantity}"
            ),
            Call::Post {
                account,
                day,
                order,
                receipts,
                usage,
            } => {
                let flag = DayFlag(order);
                write!(
                    f,
                    "post account {account}, day {day}{flag}: receipts {receipts}, usage {usage}"
                )
            }
            Call::Adjust { account, quantity } => write!(
                f,
                "adjust account {account} by {quantity}"
            ),
            Call::State { account, quantity } => write!(
                f,
                "state account {account}: operating quantity {quantity}"
            ),
            Call::Offer {
                giver,
                gives,
                taker,
                takes,
                quantity,
            } => {
                let from = ComponentNumber(gives);
                let to = ComponentNumber(takes);
                write!(
                    f,
                    "offer {quantity} from account {giver}, component {gives} ({from}), to account {taker}, component {takes} ({to})"
                )
            }
            Call::Accept { taker, place } => write!(
                f,
                "accept by account {taker} at place {place}"
            ),
            Call::Fold { member, agent } => write!(f, "fold account {member} into account {agent}"),
            Call::Settle { account, clear } => {
                let name = clear_name(clear);
                write!(f, "settle account {account}, clear flag {clear} ({name})")
            }
            Call::Close => write!(f, "close the running month"),
        }
    }
}
