//! The lines of RHS.
ghost use Rattle.std.specs.Prelude.{◌≡◌, ◌<◌, false, None, Some, length, IfSome};
ghost use Rattle.std.specs.List.{list_any};
ghost use Rattle.cip_mps_lines.specs.MpsLines.{values_of};
ghost use Rattle.cip_text_rules.specs.MpsRules.{least};
ghost use Rattle.cip_text_rules.specs.MpsState.{no_row, item_at, row_at, value_for};
ghost use Rattle.cip_text_rules.specs.MpsSteps.{changed, overflows_with, has_right_side, with_right_side};
ghost use Rattle.cip_text_rules.specs.MpsLineTests.{right_side_tests};
ghost use Rattle.cip_mps.specs.DraftStates.{kept};
ghost use Rattle.cip_mps.specs.FoundRows.{AreFound};

use crate::draft::Draft;
use crate::names::RowNumbers;
use crate::values::{are_twins, has_fine_number, has_huge_number, has_no_number};
use cip_frac::Frac;
use cip_mps_lines::Pairs;

impl Draft {
    /// Whether the row of a number has a value in RHS.
    fn has_right_side(&self, row: Option<usize>) -> bool
        requires { IfSome row (λ number. number < length self.now.rows) }
        ensures { result ≡ has_right_side (item_at no_row self.now.rows row) }
    {
        match row {
            None => false,
            Some(number) => self.rows.head(number).right_side.is_some(),
        }
    }

    /// Whether the row of a value has one in RHS.
    fn any_right_side(&self, values: &Pairs<'_>, rows: RowNumbers) -> bool
        requires { AreFound self.now.row_names values.now rows }
        ensures { result
            ≡ list_any (λ value. has_right_side (row_at (kept self.now) value.row)) (values_of values.now) }
    {
        let second = match &values.second {
            None => false,
            Some(_) => self.has_right_side(rows.second),
        };
        self.has_right_side(rows.first) || second
    }

    /// Whether a side of the row of a number can't be formed with a value in RHS.
    fn is_wide_with_right_side(&self, row: Option<usize>, value: Frac) -> bool
        requires { IfSome row (λ number. number < length self.now.rows) }
        ensures { result ≡ overflows_with (Some value) None (item_at no_row self.now.rows row) }
    {
        match row {
            None => false,
            Some(number) => self.rows.head(number).is_wide_with_right_side(value),
        }
    }

    /// Whether a side of a row that a line of RHS names can't be formed. Of two values for one row the first counts.
    #[tactic(auto, using(cip_text_rules::proofs::MpsNames::bytes_self))]
    fn any_wide_right_side(&self, values: &Pairs<'_>, rows: RowNumbers) -> bool
        requires { AreFound self.now.row_names values.now rows }
        ensures { let all = values_of values.now in result ≡ list_any
            (λ value. overflows_with (value_for all value.row) None (row_at (kept self.now) value.row)) all }
    {
        let first = values.first.number.value();
        let second = match &values.second {
            None => false,
            Some(pair) => {
                let value = if pair.row == values.first.row {
                    first
                } else {
                    pair.number.value()
                };
                self.is_wide_with_right_side(rows.second, value)
            }
        };
        self.is_wide_with_right_side(rows.first, first) || second
    }

    /// The least kind of fault of a line of RHS, of which the numbers of the rows are given.
    pub(crate) fn right_side_fault(&self, values: &Pairs<'_>, rows: RowNumbers) -> Option<u32>
        requires { AreFound self.now.row_names values.now rows }
        ensures { result ≡ least (right_side_tests (kept self.now) (values_of values.now)) }
    {
        if has_no_number(values) {
            return Some(5);
        }
        if has_huge_number(values) || self.any_wide_right_side(values, rows) {
            return Some(6);
        }
        if has_fine_number(values) {
            return Some(7);
        }
        if self.names_unknown(values, rows) {
            return Some(8);
        }
        if self.any_right_side(values, rows) || are_twins(values) {
            return Some(11);
        }
        None
    }

    /// Sets the value in RHS of the row of a number.
    pub(crate) fn set_right_side(&mut self, row: Option<usize>, value: Frac)
        requires within { IfSome row (λ number. number < length self.old.rows) }
        requires fits { overflows_with (Some value) None (item_at no_row self.old.rows row) ≡ false }
        ensures { kept self.new
            ≡ record (kept self.old) { rows = changed no_row self.old.rows row (with_right_side value) } }
    {
        if let Some(number) = row {
            self.rows.set_right_side(number, value);
        }
    }
}
