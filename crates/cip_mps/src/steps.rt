//! One line more.
ghost use Rattle.std.specs.Prelude.{IfOk, option_map};
ghost use Rattle.cip_text.specs.TextLines.{fields_left};
ghost use Rattle.cip_mps_lines.specs.MpsKinds.{part_of, row_kind_in, bound_kind_in};
ghost use Rattle.cip_mps_lines.specs.MpsLines.{values_of, saying_of};
ghost use Rattle.cip_text_rules.specs.MpsSayings as text;
ghost use Rattle.cip_mps.specs.DraftStates.{kept};
ghost use Rattle.cip_mps.specs.DraftSteps.{IsStep};

use crate::draft::Draft;
use crate::sections::sense_on;
use cip_mps_lines::{BoundKind, BoundNumber, Line, Pairs, Part, RowKind, sense_of};
use cip_text::Fields;
use cip_text_rules::step_laws::lines_have_tests;
use std::alloc::AllocError;

impl Draft {
    /// Reads a section line.
    fn read_section(&mut self, part: Part, words: &Fields<'_>) -> Result<Option<u32>, AllocError>
        ensures { IfOk result (IsStep (kept self.old) (kept self.new)
            (text.Opens (part_of part) (fields_left words.now))) }
    {
        lines_have_tests();
        let fault = self.section_fault(part, words);
        if fault.is_none() {
            self.opened.push(part)?;
            self.put_sense(sense_on(part, words));
        }
        Ok(fault)
    }

    /// Reads a line of OBJSENSE.
    fn read_sense(&mut self, word: &[u8]) -> Option<u32>
        ensures { IsStep (kept self.old) (kept self.new) (text.SenseLine word.now) result }
    {
        lines_have_tests();
        let sense = sense_of(word);
        if sense.is_none() {
            return Some(21);
        }
        self.put_sense(sense);
        None
    }

    /// Reads a line of ROWS.
    fn read_row(&mut self, kind: Option<RowKind>, name: &[u8]) -> Result<Option<u32>, AllocError>
        ensures { IfOk result (IsStep (kept self.old) (kept self.new)
            (text.RowLine (option_map row_kind_in kind) name.now)) }
    {
        lines_have_tests();
        let fault = self.row_fault(kind, name);
        match (fault, kind) {
            (None, Some(kind)) => {
                self.add_row(kind, name)?;
                Ok(None)
            }
            _ => Ok(fault),
        }
    }

    /// Reads a line of COLUMNS.
    fn read_column(
        &mut self,
        name: &[u8],
        whole: bool,
        values: &Pairs<'_>,
    ) -> Result<Option<u32>, AllocError>
        ensures { IfOk result (IsStep (kept self.old) (kept self.new)
            (text.ColumnLine name.now whole (values_of values.now))) }
    {
        lines_have_tests();
        let column = self.find_column(name);
        let rows = self.find_rows(values);
        let fault = self.column_fault(name, values, column, rows);
        if fault.is_none() {
            self.put_column(name, whole, values, column, rows)?;
            self.near = rows.next();
        }
        Ok(fault)
    }

    /// Reads a line of RHS.
    fn read_right_sides(&mut self, set_name: &[u8], values: &Pairs<'_>) -> Option<u32>
        ensures { IsStep (kept self.old) (kept self.new)
            (text.RightSideLine set_name.now (values_of values.now)) result }
    {
        lines_have_tests();
        let rows = self.find_rows(values);
        let fault = self.right_side_fault(values, rows);
        if fault.is_none() {
            self.set_right_side(rows.first, values.first.number.value());
            if let Some(pair) = &values.second {
                self.set_right_side(rows.second, pair.number.value());
            }
        }
        fault
    }

    /// Reads a line of RANGES.
    fn read_ranges(&mut self, set_name: &[u8], values: &Pairs<'_>) -> Option<u32>
        ensures { IsStep (kept self.old) (kept self.new)
            (text.RangeLine set_name.now (values_of values.now)) result }
    {
        lines_have_tests();
        let rows = self.find_rows(values);
        let fault = self.range_fault(values, rows);
        if fault.is_none() {
            self.set_range(rows.first, values.first.number.value());
            if let Some(pair) = &values.second {
                self.set_range(rows.second, pair.number.value());
            }
        }
        fault
    }

    /// Reads a line of BOUNDS.
    fn read_bound(
        &mut self,
        kind: BoundKind,
        set_name: &[u8],
        name: &[u8],
        value: &BoundNumber<'_>,
    ) -> Option<u32>
        ensures { IsStep (kept self.old) (kept self.new)
            (text.BoundLine (bound_kind_in kind) set_name.now name.now value.now) result }
    {
        lines_have_tests();
        let column = self.find_column(name);
        let fault = self.bound_fault(kind, value, column);
        if fault.is_none() {
            if let Some(number) = column {
                let column = &mut self.columns[number];
                column.take(kind, value);
            }
        }
        fault
    }

    /// Reads one line more: the least kind of fault of it, from 1 to 21, or none, and then the draft has what the
    /// line says. A line with a fault changes nothing. `Err` comes where a growth was refused; the draft may then
    /// have a part of the line.
    pub fn read(&mut self, line: &Line<'_>) -> Result<Option<u32>, AllocError>
        ensures { IfOk result (IsStep (kept self.old) (kept self.new) (saying_of line.now)) }
    {
        lines_have_tests();
        match line {
            Line::UnknownSection => Ok(Some(1)),
            Line::Opens { part, words } => self.read_section(*part, words),
            Line::Misplaced => Ok(Some(2)),
            Line::Miscounted => Ok(Some(4)),
            Line::Skipped => Ok(None),
            Line::SenseLine { word } => Ok(self.read_sense(word)),
            Line::RowLine { kind, name } => self.read_row(*kind, name),
            Line::ColumnLine {
                column,
                whole,
                values,
            } => self.read_column(column, *whole, values),
            Line::Marker { .. } => Ok(None),
            Line::BadMarker => Ok(Some(15)),
            Line::RightSideLine { set_name, values } => Ok(self.read_right_sides(set_name, values)),
            Line::RangeLine { set_name, values } => Ok(self.read_ranges(set_name, values)),
            Line::BoundLine {
                kind,
                set_name,
                column,
                value,
            } => Ok(self.read_bound(*kind, set_name, column, value)),
            Line::BadBound => Ok(Some(14)),
        }
    }
}
