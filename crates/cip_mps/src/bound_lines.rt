//! The lines of BOUNDS.
ghost use Rattle.std.specs.Prelude.{◌≡◌, ℕ, ◌<◌, ◌||◌, List, false, vec_len, IfSome};
ghost use Rattle.cip_mps_lines.specs.MpsKinds.{bound_kind_in};
ghost use Rattle.cip_text_rules.specs.MpsWords.{number_in};
ghost use Rattle.cip_text_rules.specs.MpsRules as text;
ghost use Rattle.cip_text_rules.specs.MpsRules.{least, is_mixed_by};
ghost use Rattle.cip_text_rules.specs.MpsLineTests.{bound_tests};
ghost use Rattle.cip_mps.specs.DraftStates.{kept};

use crate::draft::Draft;
use cip_mps_lines::{BoundKind, BoundNumber};

/// Whether a value is no bound on a side on which it can't be left out, or that of a bound of type SC isn't above 0.
fn is_no_bound(kind: BoundKind, value: &BoundNumber<'_>) -> bool
    ensures { result ≡ text.is_no_bound (bound_kind_in kind) value.now }
{
    match kind {
        BoundKind::SemiContinuous => !value.is_positive(),
        BoundKind::Low | BoundKind::WholeLow => value.is_huge() && !value.is_negative(),
        BoundKind::High | BoundKind::WholeHigh => value.is_huge() && value.is_negative(),
        BoundKind::Fixed => value.is_huge(),
        _ => false,
    }
}

impl Draft {
    /// The least kind of fault of a line of BOUNDS, of which the number of the column is given.
    pub(crate) fn bound_fault(
        &self,
        kind: BoundKind,
        value: &BoundNumber<'_>,
        column: Option<usize>,
    ) -> Option<u32>
        requires { IfSome column (λ number. number < vec_len self.now.columns) }
        ensures { (name : List ℕ) → column ≡ number_in self.now.column_names name
            → result ≡ least (bound_tests (kept self.now) (bound_kind_in kind) name value.now) }
    {
        if value.is_no_number() {
            return Some(5);
        }
        if value.is_too_fine() {
            return Some(7);
        }
        let Some(number) = column else {
            return Some(9);
        };
        if is_no_bound(kind, value) || self.columns[number].is_mixed_by(kind) {
            return Some(21);
        }
        None
    }
}
