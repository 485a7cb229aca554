//! The faults of LP texts, as they are told.
ghost use Rattle.std.specs.Prelude.{◌≡◌, Some, true, option_map};
ghost use Rattle.cip_text.specs.PieceFaults.{has_kind_to};
ghost use Rattle.cip_text.specs.TextFaults.{IsSaid};
ghost use Rattle.cip_lp.specs.LpKindTexts.{kind_number};
ghost use Rattle.cip_lp.specs.LpReaders.{as_told};

use crate::kinds::LpKind;
use cip_text::{KnownFault, TextFault, told};

/// A fault with the kind that is told: that of a text that is too long is 9, too.
fn as_told(known: KnownFault) -> KnownFault
    requires { has_kind_to 12 (Some known) ≡ true }
    ensures told { result ≡ as_told known }
    ensures kinds { has_kind_to 11 (Some result) ≡ true }
{
    KnownFault {
        line: known.line,
        kind: if known.kind == 12 { 9 } else { known.kind },
    }
}

/// What is told of a fault that is known, or of none.
pub(crate) fn answer(known: Option<KnownFault>) -> Result<(), TextFault<LpKind>>
    requires { has_kind_to 12 known ≡ true }
    ensures { IsSaid kind_number (option_map as_told known) result }
{
    match known {
        None => Ok(()),
        Some(fault) => told(Some(as_told(fault))),
    }
}
