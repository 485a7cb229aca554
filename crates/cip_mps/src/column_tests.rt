//! The tests of a line of COLUMNS.
ghost use Rattle.std.specs.Prelude.{◌≡◌, ◌<◌, ◌+◌, vec_len, IfSome, length};
ghost use Rattle.std.specs.List.{list_any};
ghost use Rattle.cip_mps_lines.specs.MpsLines.{values_of};
ghost use Rattle.cip_text_rules.specs.MpsWords.{number_in};
ghost use Rattle.cip_text_rules.specs.MpsRules.{least};
ghost use Rattle.cip_text_rules.specs.MpsState.{no_row, item_at, row_at};
ghost use Rattle.cip_text_rules.specs.MpsSteps.{holds};
ghost use Rattle.cip_text_rules.specs.MpsLineTests.{has_unknown};
ghost use Rattle.cip_mps.specs.DraftLines.{column_rules};
ghost use Rattle.cip_mps.specs.DraftStates.{kept};
ghost use Rattle.cip_mps.specs.FoundRows.{AreFound};

use crate::draft::Draft;
use crate::names::RowNumbers;
use crate::values::{are_twins, count_entries, has_fine_number, has_huge_number, has_no_number};
use cip_model::{LONGEST_NAME, MOST_COLUMNS, MOST_ENTRIES};
use cip_mps_lines::Pairs;

impl Draft {
    /// Whether a value names a row that wasn't given.
    pub(crate) fn names_unknown(&self, values: &Pairs<'_>, rows: RowNumbers) -> bool
        requires { AreFound self.now.row_names values.now rows }
        ensures { result ≡ has_unknown (kept self.now) (values_of values.now) }
    {
        let second = match &values.second {
            None => false,
            Some(_) => rows.second.is_none(),
        };
        rows.first.is_none() || second
    }

    /// Whether the row of a number has a number in the column of a number.
    fn holds(&self, column: Option<usize>, row: Option<usize>) -> bool
        requires column { IfSome column (λ number. number < vec_len self.now.columns) }
        requires row { IfSome row (λ number. number < length self.now.rows) }
        ensures { result ≡ holds column (item_at no_row self.now.rows row) }
    {
        match (column, row) {
            (Some(column), Some(row)) => self.rows.holds(row, column as u32),
            _ => false,
        }
    }

    /// Whether the row of a value has a number in this column.
    fn any_holds(&self, column: Option<usize>, values: &Pairs<'_>, rows: RowNumbers) -> bool
        requires column { IfSome column (λ number. number < vec_len self.now.columns) }
        requires found { AreFound self.now.row_names values.now rows }
        ensures { result ≡ list_any (λ value. holds column (row_at (kept self.now) value.row)) (values_of values.now) }
    {
        let second = match &values.second {
            None => false,
            Some(_) => self.holds(column, rows.second),
        };
        self.holds(column, rows.first) || second
    }

    /// The least kind of fault of a line of COLUMNS, of which the numbers of the column and of the rows are given.
    pub(crate) fn column_fault(
        &self,
        name: &[u8],
        values: &Pairs<'_>,
        column: Option<usize>,
        rows: RowNumbers,
    ) -> Option<u32>
        requires column { column ≡ number_in self.now.column_names name.now }
        requires within { IfSome column (λ number. number < vec_len self.now.columns) }
        requires rows { AreFound self.now.row_names values.now rows }
        ensures { result ≡ least (column_rules (kept self.now) name.now (values_of values.now)) }
    {
        if has_no_number(values) {
            return Some(5);
        }
        if has_huge_number(values) {
            return Some(6);
        }
        if has_fine_number(values) {
            return Some(7);
        }
        if self.names_unknown(values, rows) {
            return Some(8);
        }
        if self.any_holds(column, values, rows) || are_twins(values) {
            return Some(11);
        }
        let full = match column {
            None => self.columns.len() >= MOST_COLUMNS,
            Some(number) => {
                if number + 1 < self.columns.len() {
                    return Some(12);
                }
                false
            }
        };
        if full || self.entries + count_entries(values) > MOST_ENTRIES {
            return Some(18);
        }
        if name.len() > LONGEST_NAME {
            return Some(19);
        }
        None
    }
}
