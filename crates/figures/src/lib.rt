// Worked figures of the tariff: a table that is proved, and examples that are run.
#![tactic(auto)]

ghost use Rattle.std.specs.Prelude.{◌≡◌};
ghost use Rattle.figures.specs.Table.{WorkedFigures};

#[cfg(test)]
mod card_tests;
#[cfg(test)]
mod tests;

/// The table of figures, which is proved; it has no code.
fn table()
    ensures { WorkedFigures }
{}

/// How many figures the proved table has.
pub fn worked_figures() -> u8
    ensures count { result ≡ 12 }
    ensures stand { WorkedFigures }
{
    table();
    12
}
