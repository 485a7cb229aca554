//! The parts that a program is made of.
use crate::names::Names;
use cip_frac::Frac;
use cip_lin::{Bounds, Choices, Row};

/// Which way the cost is to go.
#[derive(Clone, Copy, PartialEq, Eq)]
pub enum Sense {
    /// As low as can be.
    Minimize,
    /// As high as can be; the minimised form has the negated cost.
    Maximize,
}

/// The parts of a program: rows and columns by number. Costs and the constant are those of the
/// minimised form; `whole` says of each column whether it takes whole values only.
#[derive(Drop)]
pub struct Parts {
    /// The names of the columns, at most `MOST_COLUMNS`.
    pub column_names: Names,
    /// The names of the rows, at most `MOST_ROWS`.
    pub row_names: Names,
    /// The rows, each over columns of the program.
    pub rows: Vec<Row>,
    /// The cost of each column.
    pub costs: Vec<Frac>,
    /// What is added to the sum of the costs.
    pub constant: Frac,
    /// Which way the cost goes in the text.
    pub sense: Sense,
    /// Whether each column takes whole values only.
    pub whole: Vec<bool>,
    /// The sides of each column; those of a semi-continuous one from 0 to the greater of 0 and its own high side.
    pub bounds: Bounds,
    /// What is chosen of each column: of a semi-continuous one it is open, with the column's own sides. Columns past
    /// the end are plain, so a program without semi-continuous columns has no choices, and they take no memory.
    pub choices: Choices,
}
