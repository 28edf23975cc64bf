// Gas that calls move.
ghost use Rattle.std.specs.Prelude.{◌≡◌, ◌≤◌, pos, ◌-ℤ◌, if◌then◌else◌, unsigned_abs};
ghost use Rattle.tally.specs.Tallies.{cashes_out, cashed_out};
ghost use Rattle.tally.specs.Limits.{most_moved};

use records::BillLine;
use tariff::BillKind;

// The bounds of what a call moves stand in the clauses here and in `Tally` and `Numbers`: a number of 128 bits has no invariant to hold them.

/// Receipts less usage.
pub(crate) fn imbalance(receipts: u64, usage: u64) -> i128
    ensures value { result ≡ pos receipts -ℤ pos usage }
    ensures bound { unsigned_abs result ≤ most_moved }
{
    i128::from(receipts) - i128::from(usage)
}

/// Whether a line of this kind cashes gas out.
fn cashes_out(kind: BillKind) -> bool
    ensures { result ≡ cashes_out kind }
{
    matches!(kind, BillKind::TierOne | BillKind::TierTwo)
}

/// The gas that a line cashes out.
fn cashed_by(line: &BillLine) -> i64
    ensures { result ≡ (if cashes_out line.now.charge.kind then line.now.charge.quantity else pos 0) }
{
    if cashes_out(line.charge.kind) {
        line.charge.quantity
    } else {
        0
    }
}

/// The gas that lines cash out.
pub fn cashed_out(lines: &[BillLine]) -> i128
    ensures value { result ≡ cashed_out lines.now }
    ensures bound { unsigned_abs result ≤ most_moved }
{
    // Not by `sum`, of which a proof leaves open that signed numbers stay within its type.
    let mut sum = 0;
    for line in lines {
        sum += i128::from(cashed_by(line));
    }
    sum
}
