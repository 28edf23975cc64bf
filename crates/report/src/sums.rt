// The gas that performed calls moved into the book and out of it, and what they made due.
use records::{BillLine, Call};
use tally::cashed_out;

/// Sums over performed calls: gas in Dth, and the amounts due in ten-thousandths of a cent.
#[derive(Clone, Copy, Default)]
pub struct Sums {
    pub receipts: i128,
    pub usage: i128,
    pub adjusted: i128,
    pub stated: i128,
    pub cashed_out: i128,
    pub due: i128,
}

fn add<N: Into<i128>>(sum: &mut i128, number: N) {
    *sum = sum.saturating_add(number.into());
}

impl Sums {
    /// Nothing was performed.
    pub fn new() -> Sums {
        Sums::default()
    }

    /// Receipts less usage, with adjustments and operating quantities, less the gas cashed out.
    pub fn gas(&self) -> i128 {
        self.receipts
            .saturating_sub(self.usage)
            .saturating_add(self.adjusted)
            .saturating_add(self.stated)
            .saturating_sub(self.cashed_out)
    }

    /// Counts a performed call, the lines that it wrote and what it made due.
    pub fn count(&mut self, call: &Call, lines: &[BillLine], due: i128) {
        add(&mut self.due, due);
        match *call {
            Call::Post {
                receipts,
                usage,
                ..
            } => {
                add(&mut self.receipts, receipts);
                add(&mut self.usage, usage);
            }
            Call::Adjust { quantity, .. } => add(&mut self.adjusted, quantity),
            Call::State { quantity, .. } => add(&mut self.stated, quantity),
            Call::Settle { .. } => add(&mut self.cashed_out, cashed_out(lines)),
            _ => {}
        }
    }
}
