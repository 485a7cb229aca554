//! The sides of a row.
ghost use Rattle.std.specs.Prelude.{◌≡◌, false, if◌then◌else◌};
ghost use Rattle.cip_rational.specs.Range.{sum_overflows, difference_overflows};
ghost use Rattle.cip_mps_lines.specs.MpsKinds.{row_kind_in};
ghost use Rattle.cip_text_rules.specs.MpsProgram as text;
ghost use Rattle.cip_text_rules.specs.MpsProgram.{is_free};
ghost use Rattle.cip_text_rules.specs.MpsState.{sides_with};
ghost use Rattle.cip_text_rules.specs.MpsSteps.{moved_overflows};

use crate::sides::moves_low;
use cip_frac::Frac;
use cip_lin::Sides;
use cip_mps_lines::RowKind;

/// The sides of a row without a value in RANGES.
fn plain_sides(kind: RowKind, right_side: Frac) -> Sides
    ensures { result ≡ text.plain_sides (row_kind_in kind) right_side }
{
    match kind {
        RowKind::Free => Sides::open(),
        RowKind::AtMost => Sides {
            low: None,
            high: Some(right_side),
        },
        RowKind::AtLeast => Sides {
            low: Some(right_side),
            high: None,
        },
        RowKind::EqualTo => Sides {
            low: Some(right_side),
            high: Some(right_side),
        },
    }
}

/// The sides of a row with a value in RANGES of this size, where the moved side can be formed.
fn ranged(low: bool, right_side: Frac, size: Frac) -> Sides
    requires { (if low then difference_overflows right_side size else sum_overflows right_side size) ≡ false }
    ensures { result ≡ text.ranged low right_side size }
{
    if low {
        match right_side.sub(size) {
            Ok(moved) => Sides {
                low: Some(moved),
                high: Some(right_side),
            },
            Err(_) => unreachable!(),
        }
    } else {
        match right_side.add(size) {
            Ok(moved) => Sides {
                low: Some(right_side),
                high: Some(moved),
            },
            Err(_) => unreachable!(),
        }
    }
}

/// The sides of a row that isn't of type N, by its type, its right-hand side and its value in RANGES, if it has one,
/// where the side that this moves can be formed.
pub fn row_sides(kind: RowKind, right_side: Frac, range: Option<Frac>) -> Sides
    requires kept { is_free (row_kind_in kind) ≡ false }
    requires fits { moved_overflows (row_kind_in kind) right_side range ≡ false }
    ensures { result ≡ sides_with (row_kind_in kind) right_side range }
{
    match range {
        None => plain_sides(kind, right_side),
        Some(range) => ranged(moves_low(kind, range), right_side, range.abs()),
    }
}
