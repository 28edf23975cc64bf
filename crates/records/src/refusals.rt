// What is refused of a field.
ghost use Rattle.std.specs.Prelude.{◌≡◌};
ghost use Rattle.records.specs.Refusals.{outside};

/// Whether a field lies outside its values.
pub fn outside(least: u8, most: u8, field: u8) -> bool
    ensures { result ≡ outside least most field }
{
    !(least..=most).contains(&field)
}
