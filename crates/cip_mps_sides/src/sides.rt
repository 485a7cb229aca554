//! The sides that RANGES moves.
ghost use Rattle.std.specs.Prelude.{◌≡◌, if◌then◌else◌};
ghost use Rattle.cip_rational.specs.Range.{sum_overflows, difference_overflows};
ghost use Rattle.cip_mps_lines.specs.MpsKinds.{row_kind_in};
ghost use Rattle.cip_text_rules.specs.MpsProgram.{is_free};
ghost use Rattle.cip_text_rules.specs.MpsState.{moves_low_side};
ghost use Rattle.cip_text_rules.specs.MpsSteps.{moved_overflows};

use cip_frac::Frac;
use cip_mps_lines::RowKind;

/// Whether a row is of type N.
pub fn is_free_kind(kind: RowKind) -> bool
    ensures { result ≡ is_free (row_kind_in kind) }
{
    match kind {
        RowKind::Free => true,
        RowKind::AtMost | RowKind::AtLeast | RowKind::EqualTo => false,
    }
}

/// Whether a value of RANGES moves the low side of a row of this type.
pub(crate) fn moves_low(kind: RowKind, range: Frac) -> bool
    ensures { result ≡ moves_low_side (row_kind_in kind) range }
{
    match kind {
        RowKind::Free | RowKind::AtLeast => false,
        RowKind::AtMost => true,
        RowKind::EqualTo => range.is_negative(),
    }
}

/// Whether a side moved by a size can't be formed.
fn side_overflows(low: bool, right_side: Frac, size: Frac) -> bool
    ensures { result ≡ (if low then difference_overflows right_side size else sum_overflows right_side size) }
{
    let moved = if low {
        right_side.sub(size)
    } else {
        right_side.add(size)
    };
    match moved {
        Ok(_) => false,
        Err(_) => true,
    }
}

/// Whether the side that a value of RANGES moves can't be formed; `false` where there is no value, or the row is of
/// type N.
pub fn is_wide(kind: RowKind, right_side: Frac, range: Option<Frac>) -> bool
    ensures { result ≡ moved_overflows (row_kind_in kind) right_side range }
{
    match range {
        None => false,
        Some(range) => {
            !is_free_kind(kind) && side_overflows(moves_low(kind, range), right_side, range.abs())
        }
    }
}
