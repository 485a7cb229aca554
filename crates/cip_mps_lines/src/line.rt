//! What a line says.

use crate::bound_numbers::BoundNumber;
use crate::numbers::Number;
use crate::words::{BoundKind, Part, RowKind};
use cip_text::Fields;

/// The name of a row, and a number for it.
#[derive(Drop)]
pub struct Pair<'a> {
    /// The name of the row.
    pub row: &'a [u8],
    /// The number.
    pub number: Number<'a>,
}

/// The one or two values of a line.
#[derive(Drop)]
pub struct Pairs<'a> {
    /// The first value.
    pub first: Pair<'a>,
    /// The second value, where the line has one.
    pub second: Option<Pair<'a>>,
}

/// What a line says.
#[derive(Drop)]
pub enum Line<'a> {
    /// A section line whose word is none of the eight.
    UnknownSection,
    /// A section line.
    Opens {
        /// The section.
        part: Part,
        /// The words behind its own.
        words: Fields<'a>,
    },
    /// A line of fields where none may stand.
    Misplaced,
    /// A line of fields with a wrong number of them.
    Miscounted,
    /// A line of another set than the first of its section.
    Skipped,
    /// A line of OBJSENSE.
    SenseLine {
        /// The word of the sense, which may be none.
        word: &'a [u8],
    },
    /// A line of ROWS.
    RowLine {
        /// The type of the row; none where its word is none of the four.
        kind: Option<RowKind>,
        /// The name of the row.
        name: &'a [u8],
    },
    /// A line of COLUMNS.
    ColumnLine {
        /// The name of the column.
        column: &'a [u8],
        /// Whether the line stands between markers.
        whole: bool,
        /// The values of the column.
        values: Pairs<'a>,
    },
    /// A marker.
    Marker {
        /// Whether it begins the whole columns; else it ends them.
        begins: bool,
    },
    /// A marker that neither begins nor ends the whole columns.
    BadMarker,
    /// A line of RHS.
    RightSideLine {
        /// The name of the set, empty where the line names none.
        set_name: &'a [u8],
        /// The values of rows.
        values: Pairs<'a>,
    },
    /// A line of RANGES.
    RangeLine {
        /// The name of the set, empty where the line names none.
        set_name: &'a [u8],
        /// The values of rows.
        values: Pairs<'a>,
    },
    /// A line of BOUNDS.
    BoundLine {
        /// The type of the bound.
        kind: BoundKind,
        /// The name of the set, empty where the line names none.
        set_name: &'a [u8],
        /// The name of the column.
        column: &'a [u8],
        /// The value of the bound; 0 for a type without one.
        value: BoundNumber<'a>,
    },
    /// A line of BOUNDS whose type is none of the ten.
    BadBound,
}
