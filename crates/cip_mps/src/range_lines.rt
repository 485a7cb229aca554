//! The lines of RANGES.
ghost use Rattle.std.specs.Prelude.{◌≡◌, ◌<◌, false, None, Some, length, IfSome};
ghost use Rattle.std.specs.List.{list_any};
ghost use Rattle.cip_mps_lines.specs.MpsLines.{values_of};
ghost use Rattle.cip_text_rules.specs.MpsRules.{least};
ghost use Rattle.cip_text_rules.specs.MpsState.{no_row, item_at, row_at, value_for};
ghost use Rattle.cip_text_rules.specs.MpsSteps.{changed, overflows_with, has_range, is_free_at, with_range};
ghost use Rattle.cip_text_rules.specs.MpsLineTests.{range_tests};
ghost use Rattle.cip_mps.specs.DraftStates.{kept};
ghost use Rattle.cip_mps.specs.FoundRows.{AreFound};

use crate::draft::Draft;
use crate::names::RowNumbers;
use crate::values::{are_twins, has_fine_number, has_huge_number, has_no_number};
use cip_frac::Frac;
use cip_mps_lines::Pairs;

impl Draft {
    /// Whether the row of a number has a value in RANGES.
    fn has_range(&self, row: Option<usize>) -> bool
        requires { IfSome row (λ number. number < length self.now.rows) }
        ensures { result ≡ has_range (item_at no_row self.now.rows row) }
    {
        match row {
            None => false,
            Some(number) => self.rows.head(number).range.is_some(),
        }
    }

    /// Whether the row of a value has one in RANGES.
    fn any_range(&self, values: &Pairs<'_>, rows: RowNumbers) -> bool
        requires { AreFound self.now.row_names values.now rows }
        ensures { result
            ≡ list_any (λ value. has_range (row_at (kept self.now) value.row)) (values_of values.now) }
    {
        let second = match &values.second {
            None => false,
            Some(_) => self.has_range(rows.second),
        };
        self.has_range(rows.first) || second
    }

    /// Whether the row of a number is of type N.
    fn is_free_at(&self, row: Option<usize>) -> bool
        requires { IfSome row (λ number. number < length self.now.rows) }
        ensures { result ≡ is_free_at (item_at no_row self.now.rows row) }
    {
        match row {
            None => false,
            Some(number) => self.rows.head(number).is_free(),
        }
    }

    /// Whether the row of a value is of type N.
    fn any_free(&self, values: &Pairs<'_>, rows: RowNumbers) -> bool
        requires { AreFound self.now.row_names values.now rows }
        ensures { result
            ≡ list_any (λ value. is_free_at (row_at (kept self.now) value.row)) (values_of values.now) }
    {
        let second = match &values.second {
            None => false,
            Some(_) => self.is_free_at(rows.second),
        };
        self.is_free_at(rows.first) || second
    }

    /// Whether a side of the row of a number can't be formed with a value in RANGES.
    fn is_wide_with_range(&self, row: Option<usize>, value: Frac) -> bool
        requires { IfSome row (λ number. number < length self.now.rows) }
        ensures { result ≡ overflows_with None (Some value) (item_at no_row self.now.rows row) }
    {
        match row {
            None => false,
            Some(number) => self.rows.head(number).is_wide_with_range(value),
        }
    }

    /// Whether a side of a row that a line of RANGES names can't be formed. Of two values for one row the first counts.
    #[tactic(auto, using(cip_text_rules::proofs::MpsNames::bytes_self))]
    fn any_wide_range(&self, values: &Pairs<'_>, rows: RowNumbers) -> bool
        requires { AreFound self.now.row_names values.now rows }
        ensures { let all = values_of values.now in result ≡ list_any
            (λ value. overflows_with None (value_for all value.row) (row_at (kept self.now) value.row)) all }
    {
        let first = values.first.number.value();
        let second = match &values.second {
            None => false,
            Some(pair) => {
                let value = if pair.row == values.first.row {
                    first
                } else {
                    pair.number.value()
                };
                self.is_wide_with_range(rows.second, value)
            }
        };
        self.is_wide_with_range(rows.first, first) || second
    }

    /// The least kind of fault of a line of RANGES, of which the numbers of the rows are given.
    pub(crate) fn range_fault(&self, values: &Pairs<'_>, rows: RowNumbers) -> Option<u32>
        requires { AreFound self.now.row_names values.now rows }
        ensures { result ≡ least (range_tests (kept self.now) (values_of values.now)) }
    {
        if has_no_number(values) {
            return Some(5);
        }
        if has_huge_number(values) || self.any_wide_range(values, rows) {
            return Some(6);
        }
        if has_fine_number(values) {
            return Some(7);
        }
        if self.names_unknown(values, rows) {
            return Some(8);
        }
        if self.any_range(values, rows) || are_twins(values) {
            return Some(11);
        }
        if self.any_free(values, rows) {
            return Some(20);
        }
        None
    }

    /// Sets the value in RANGES of the row of a number.
    pub(crate) fn set_range(&mut self, row: Option<usize>, value: Frac)
        requires within { IfSome row (λ number. number < length self.old.rows) }
        requires fits { overflows_with None (Some value) (item_at no_row self.old.rows row) ≡ false }
        ensures { kept self.new
            ≡ record (kept self.old) { rows = changed no_row self.old.rows row (with_range value) } }
    {
        if let Some(number) = row {
            self.rows.set_range(number, value);
        }
    }
}
