//! What is kept of the lines of a text.
ghost use Rattle.std.specs.Prelude.{◌≡◌, ◌≤◌, length, vec_len, true};
ghost use Rattle.std.specs.List.{filter, list_all};
ghost use Rattle.cip_problem.specs.Limits.{most_rows, most_columns, most_entries};
ghost use Rattle.cip_text_rules.specs.MpsState.{is_kept};
ghost use Rattle.cip_text_rules.specs.MpsSoundState.{held_below};

use crate::RowTable;
use crate::column_draft::ColumnDraft;
use cip_mps_lines::{NameIndex, Part};
use std::alloc::Global;

/// A program as far as the lines of a text have said it. Rows of type N are kept like others, and dropped at the end.
#[derive(Drop)]
pub struct Draft {
    pub(crate) alloc: Global,
    /// The sections so far, in their order.
    pub(crate) opened: Vec<Part>,
    /// Whether the first sense maximises, if one was said.
    pub(crate) sense: Option<bool>,
    pub(crate) row_names: NameIndex,
    /// The rows of these names, with those of type N.
    pub(crate) rows: RowTable,
    pub(crate) column_names: NameIndex,
    pub(crate) columns: Vec<ColumnDraft>,
    /// How many rows aren't of type N.
    pub(crate) row_count: usize,
    /// How many numbers of COLUMNS aren't 0.
    pub(crate) entries: usize,
    /// The row that is looked at first for the next name.
    pub(crate) near: usize,
    ghost rows_named: { length rows ≡ length row_names },
    ghost columns_named: { vec_len columns ≡ length column_names },
    ghost rows_counted: { row_count ≡ length (filter is_kept rows) },
    ghost few_rows: { row_count ≤ most_rows },
    ghost few_columns: { vec_len columns ≤ most_columns },
    ghost few_entries: { entries ≤ most_entries },
    ghost rows_below: { list_all (λ row. held_below (length column_names) row.held) rows ≡ true },
}
