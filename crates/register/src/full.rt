// What a register without enough free places answers, and the refusal that this becomes.
ghost use Rattle.std.specs.Prelude.{◌≡◌, None};
ghost use Rattle.tariff.specs.Faults.{layer_number, row_number};
ghost use Rattle.register.specs.Refusals.{register_layer};

use tariff::{Fault, Layer, Row};

/// Fewer places are free than lines are to be written.
#[derive(Clone, Copy)]
pub struct Full;

impl From<Full> for Fault {
    ghost from_gives = { λ _ f. (row_number f.row ≡ 12) × (layer_number f.layer ≡ register_layer) × (f.account ≡ None) };

    fn from(_full: Full) -> Fault {
        Fault {
            row: Row::NoRegisterPlace,
            layer: Layer::Register,
            account: None,
        }
    }
}
