// Bill lines of charges that may be absent, written to a register.
ghost use Rattle.std.specs.Prelude.{◌≡◌, ℕ, ◌≤◌, [], length, if◌then◌else◌, Ok, Err, nat_lt};
ghost use Rattle.std.specs.List.{flat_map};
ghost use Rattle.tariff.specs.declared.month.Month.{Month};
ghost use Rattle.register.specs.Registers.{Wrote, free};
ghost use Rattle.page.specs.Settling.{line_of};

use records::BillLine;
use register::{Full, Register};
use tariff::{Charge, Month};

/// How many lines charges have.
fn line_count(charges: &[Option<Charge>]) -> usize
    ensures { (a : ℕ) (m : Month) → result ≡ length (flat_map (line_of a m) charges.now) }
{
    charges.iter().filter(|charge| charge.is_some()).count()
}

// Account and month go together through this file alone; a struct of both would be unpacked at each line.
/// Writes the line of a charge, for which there is room.
fn put(account: u8, month: Month, charge: &Option<Charge>, bills: &mut Register<'_, BillLine>)
    requires { length (line_of account month charge.now) ≤ length (free bills.old) }
    ensures { Wrote bills.old (line_of account month charge.now) bills.new }
{
    if let Some(charge) = charge {
        let _ = bills.write(BillLine {
            account,
            month,
            charge: *charge,
        });
    }
}

/// Writes the lines of charges, for which there is room.
fn put_all(
    account: u8,
    month: Month,
    charges: &[Option<Charge>],
    bills: &mut Register<'_, BillLine>,
)
    requires { length (flat_map (line_of account month) charges.now) ≤ length (free bills.old) }
    ensures { Wrote bills.old (flat_map (line_of account month) charges.now) bills.new }
{
    for charge in charges {
        put(account, month, charge, bills);
    }
}

/// Writes the lines of charges, or none where the register has too few places.
pub(crate) fn bill(
    account: u8,
    month: Month,
    charges: &[Option<Charge>],
    bills: &mut Register<'_, BillLine>,
) -> Result<(), Full>
    ensures answer { result ≡ (if nat_lt (length (free bills.old)) (length (flat_map (line_of account month) charges.now)) then Err (record {}) else Ok tt) }
    ensures bills_after { Wrote bills.old (if nat_lt (length (free bills.old)) (length (flat_map (line_of account month) charges.now)) then [] else flat_map (line_of account month) charges.now) bills.new }
{
    bills.room_for(line_count(charges))?;
    put_all(account, month, charges, bills);
    Ok(())
}
