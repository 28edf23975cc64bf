// Worked figures of carryovers: a table that is proved.
#![tactic(auto)]

ghost use Rattle.std.specs.Prelude.{◌≡◌};
ghost use Rattle.carryovers.specs.Table.{CarryoverFigures};

/// The table of figures, which is proved; it has no code.
fn table()
    ensures { CarryoverFigures }
{}

/// How many figures the proved table has.
pub fn carryover_figures() -> u8
    ensures count { result ≡ 2 }
    ensures stand { CarryoverFigures }
{
    table();
    2
}
