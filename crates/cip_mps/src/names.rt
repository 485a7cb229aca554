//! Names and their numbers.
ghost use Rattle.std.specs.Prelude.{◌≡◌, ◌<◌, vec_len, IfSome};
ghost use Rattle.cip_text_rules.specs.MpsWords.{number_in};
ghost use Rattle.cip_mps.specs.FoundRows.{AreFound};

use crate::draft::Draft;
use cip_mps_lines::Pairs;

/// The numbers of the rows that the one or two values of a line name; `None` for a row that wasn't given, and for a
/// second value that the line doesn't have.
#[derive(Clone, Copy)]
pub(crate) struct RowNumbers {
    pub(crate) first: Option<usize>,
    pub(crate) second: Option<usize>,
}

/// The number behind this one.
fn behind(row: Option<usize>) -> usize {
    match row {
        None => 0,
        Some(number) => number.saturating_add(1),
    }
}

impl RowNumbers {
    /// The number behind the last of these.
    pub(crate) fn next(self) -> usize {
        match self.second {
            None => behind(self.first),
            second => behind(second),
        }
    }
}

impl Draft {
    /// The number of the column of this name; the last column is looked at first.
    pub(crate) fn find_column(&self, name: &[u8]) -> Option<usize>
        ensures number { result ≡ number_in self.now.column_names name.now }
        ensures within { IfSome result (λ number. number < vec_len self.now.columns) }
    {
        self.column_names
            .find_near(name, self.columns.len().saturating_sub(1))
    }

    /// The numbers of the rows that values name. The row behind the one that was named last is looked at first.
    pub(crate) fn find_rows(&self, values: &Pairs<'_>) -> RowNumbers
        ensures { AreFound self.now.row_names values.now result }
    {
        let first = self.row_names.find_near(values.first.row, self.near);
        let second = match &values.second {
            None => None,
            Some(pair) => self.row_names.find_near(pair.row, behind(first)),
        };
        RowNumbers { first, second }
    }
}
