// The ten calls.

// A call's fields stand in it one by one, and the book's functions take them in the same order: a struct for each call would name them a second
// time.
// Numbers for kinds, elections, components and flags: one outside its values is refused under row 1, and an enum would ask more of
// who hands it in.
/// A call with its fields as they were handed in, whether or not they lie within their values.
#[derive(Clone, Copy)]
pub enum Call {
    Open {
        account: u8,
        kind: u8,
        election: u8,
        monthly_quantity: u64,
    },
    Set {
        account: u8,
        monthly_quantity: u64,
    },
    Post {
        account: u8,
        day: u8,
        order: u8,
        receipts: u64,
        usage: u64,
    },
    Adjust {
        account: u8,
        quantity: i64,
    },
    State {
        account: u8,
        quantity: i64,
    },
    Offer {
        giver: u8,
        gives: u8,
        taker: u8,
        takes: u8,
        quantity: u64,
    },
    Accept {
        taker: u8,
        place: u8,
    },
    Fold {
        member: u8,
        agent: u8,
    },
    Settle {
        account: u8,
        clear: u8,
    },
    Close,
}
