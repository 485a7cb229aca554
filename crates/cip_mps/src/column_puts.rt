//! What a line of COLUMNS adds.
ghost use Rattle.std.specs.Prelude.{◌≡◌, ◌<◌, ◌+◌, ◌&&◌, not, nat_le, true, false, None, is_some, vec_len, IfSome, IfOk, OnOk, length, slice_index_or};
ghost use Rattle.cip_problem.specs.Limits.{most_columns};
ghost use Rattle.cip_mps_lines.specs.MpsLines.{values_of};
ghost use Rattle.cip_text_rules.specs.MpsWords.{number_in};
ghost use Rattle.cip_text_rules.specs.MpsSayings.{ColumnLine};
ghost use Rattle.cip_text_rules.specs.MpsRules.{least, has_twins};
ghost use Rattle.cip_text_rules.specs.MpsState.{no_row};
ghost use Rattle.cip_text_rules.specs.MpsSteps.{changed, with_held, put_values, with_name, with_column, number_or_next, put};
ghost use Rattle.cip_text_rules.specs.MpsSoundState.{held_below};
ghost use Rattle.cip_mps.specs.DraftLines.{entries_in, column_rules};
ghost use Rattle.cip_mps.specs.DraftStates.{kept};
ghost use Rattle.cip_mps.specs.FoundRows.{AreFound};

use crate::column_draft::ColumnDraft;
use crate::draft::Draft;
use crate::names::RowNumbers;
use crate::values::count_entries;
use cip_frac::Frac;
use cip_mps_lines::Pairs;
use std::alloc::AllocError;

impl Draft {
    /// The number of the column of a line, which is added where it is new. `Err` comes where a growth was refused.
    fn make_column(
        &mut self,
        name: &[u8],
        whole: bool,
        column: Option<usize>,
    ) -> Result<u32, AllocError>
        requires column { column ≡ number_in self.old.column_names name.now }
        requires within { IfSome column (λ number. number < vec_len self.old.columns) }
        requires room { (not (is_some column) && nat_le most_columns (length self.old.column_names)) ≡ false }
        ensures number { IfOk result (λ number. number ≡ number_or_next self.old.column_names name.now) }
        ensures state { OnOk result (kept self.new ≡ record (kept self.old) {
          column_names = with_name self.old.column_names name.now;
          columns = with_column self.old.column_names self.old.columns.items name.now whole;
        }) }
    {
        if let Some(number) = column {
            return Ok(number as u32);
        }
        let number = self.columns.len() as u32;
        let Ok(owned) = name.to_vec(self.alloc) else {
            return Err(AllocError);
        };
        let Ok(()) = self.columns.reserve(1) else {
            return Err(AllocError);
        };
        let Ok(()) = self.column_names.add(owned) else {
            return Err(AllocError);
        };
        self.columns.push_reserved(ColumnDraft::new(whole));
        Ok(number)
    }

    /// Puts a number of a column at the end of a row, whose other numbers stand on columns before that. `Err` comes
    /// where a growth was refused, and changes nothing.
    fn hold(&mut self, row: Option<usize>, column: u32, value: Frac) -> Result<(), AllocError>
        requires within { IfSome row (λ number. number < length self.old.rows) }
        requires is_column { column < length self.old.column_names }
        requires open { IfSome row
            (λ number. held_below column (slice_index_or self.old.rows number no_row).held ≡ true) }
        ensures { OnOk result (kept self.new
            ≡ record (kept self.old) { rows = changed no_row self.old.rows row (with_held column value) }) }
    {
        match row {
            None => Ok(()),
            Some(number) => {
                self.rows.hold(number, column, value)?;
                Ok(())
            }
        }
    }

    /// Puts the one or two values of a line into their rows. `Err` comes where a growth was refused.
    fn hold_values(
        &mut self,
        column: u32,
        values: &Pairs<'_>,
        rows: RowNumbers,
    ) -> Result<(), AllocError>
        requires is_column { column < length self.old.column_names }
        requires found { AreFound self.old.row_names values.now rows }
        requires apart { has_twins (values_of values.now) ≡ false }
        requires open_first { IfSome rows.first
            (λ number. held_below column (slice_index_or self.old.rows number no_row).held ≡ true) }
        requires open_second { IfSome rows.second
            (λ number. held_below column (slice_index_or self.old.rows number no_row).held ≡ true) }
        ensures { OnOk result (kept self.new ≡ record (kept self.old) {
          rows = put_values (with_held column) self.old.row_names self.old.rows (values_of values.now);
        }) }
    {
        self.hold(rows.first, column, values.first.number.value())?;
        match &values.second {
            None => Ok(()),
            Some(pair) => self.hold(rows.second, column, pair.number.value()),
        }
    }

    /// Takes a line of COLUMNS without fault, of which the numbers of the column and of the rows are given. `Err` comes
    /// where a growth was refused.
    pub(crate) fn put_column(
        &mut self,
        name: &[u8],
        whole: bool,
        values: &Pairs<'_>,
        column: Option<usize>,
        rows: RowNumbers,
    ) -> Result<(), AllocError>
        requires column { column ≡ number_in self.old.column_names name.now }
        requires within { IfSome column (λ number. number < vec_len self.old.columns) }
        requires rows { AreFound self.old.row_names values.now rows }
        requires passed { least (column_rules (kept self.old) name.now (values_of values.now)) ≡ None }
        ensures { OnOk result (kept self.new
            ≡ record (put (kept self.old) (ColumnLine name.now whole (values_of values.now))) {
              entries = self.old.entries + entries_in (values_of values.now);
            }) }
    {
        let number = self.make_column(name, whole, column)?;
        self.hold_values(number, values, rows)?;
        self.entries += count_entries(values);
        Ok(())
    }
}
