// What a quote is asked for.
use balancing::{Monthly, Statement, TierPrices, Tolerance};

/// The option that an account elects.
#[derive(Clone, Copy)]
pub(crate) enum Choice {
    Monthly(Monthly),
    SelfBalancing,
}

/// How a report is laid out.
#[derive(Clone, Copy)]
pub(crate) enum Layout {
    Table,
    Csv,
}

/// An option, a statement, four cashout prices, and how the answer is laid out.
#[derive(Clone, Copy)]
pub(crate) struct Request {
    pub(crate) choice: Choice,
    pub(crate) statement: Statement,
    pub(crate) prices: TierPrices,
    pub(crate) layout: Layout,
}

/// The built-in sample: a monthly account whose under-delivery reaches into Tier II.
pub(crate) fn sample() -> Request {
    Request {
        choice: Choice::Monthly(Monthly {
            tolerance: Tolerance::Five,
        }),
        statement: Statement {
            usage: 40_000,
            monthly_quantity: 45_000,
            imbalance: -4_350,
        },
        prices: TierPrices {
            one_over: 2_115_000,
            one_under: 4_812_500,
            two_over: 1_020_000,
            two_under: 7_350_000,
        },
        layout: Layout::Table,
    }
}
