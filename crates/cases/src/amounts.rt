// The gas that calls and lines bring and take, added up apart from the book.
// A test may not rest on the code that it tests: nothing here calls the tally or the report, which add up the same.
use records::{BillLine, Call};
use tariff::BillKind;

/// The gas that a performed call brings in.
pub(crate) fn gas_in(call: &Call) -> i128 {
    match call {
        Call::Post {
            receipts,
            usage,
            ..
        } => i128::from(*receipts) - i128::from(*usage),
        Call::Adjust { quantity, .. } | Call::State { quantity, .. } => i128::from(*quantity),
        _ => 0,
    }
}

/// The gas that lines of both tiers take out.
// Not by `sum`, here and below: that the numbers of a list of any length add up to one of their type is open.
pub(crate) fn gas_out(lines: &[BillLine]) -> i128 {
    lines
        .iter()
        .filter(|line| matches!(line.charge.kind, BillKind::TierOne | BillKind::TierTwo))
        .map(|line| i128::from(line.charge.quantity))
        .fold(0, i128::wrapping_add)
}

/// What lines bill, in ten-thousandths of a cent.
pub(crate) fn billed(lines: &[BillLine]) -> i128 {
    lines
        .iter()
        .map(|line| line.charge.cents.count.wrapping_mul(10_000))
        .fold(0, i128::wrapping_add)
}
