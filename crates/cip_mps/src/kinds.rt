//! The kinds of faults of a text of free MPS.
ghost use Rattle.std.specs.Prelude.{◌≡◌, ◌<◌, ◌≤◌, length};

use cip_text::FaultKind;
use std::{error, fmt};

/// A kind of fault. Of several rules that a line breaks the least kind counts. It is known by its
/// number, from 1 to 21; `text` has all of them.
#[derive(Clone, Copy, Debug)]
pub struct MpsKind {
    pub(crate) number: u32,
    ghost some: { 0 < number },
    ghost few: { number ≤ 21 },
}

impl FaultKind for MpsKind {
    ghost most = { 21 };

    ghost number_of = { λ kind. kind.number };

    fn of(number: u32) -> MpsKind {
        MpsKind { number }
    }
}

impl MpsKind {
    ghost use Rattle.cip_mps.specs.MpsKindTexts.{kind_text};

    /// The number of the kind, from 1 to 21.
    pub fn number(self) -> u32
        ensures { result ≡ self.number }
    {
        self.number
    }

    /// The number and the name of the kind, as they are printed.
    pub fn text(self) -> &'static str
        ensures text { result.now ≡ kind_text self.number }
        ensures short { length result.now ≤ 20 }
    {
        match self.number {
            // A section line whose word is none of the eight.
            1 => "1 UnknownSection",
            // A section again or out of order, or a line of fields where none may stand.
            2 => "2 SectionOrder",
            // ENDATA without ROWS or COLUMNS before it.
            3 => "3 MissingSection",
            // A wrong number of words or fields.
            4 => "4 FieldCount",
            // A text that is no number.
            5 => "5 BadNumber",
            // A number, or a side, above 2^127-1 in size.
            6 => "6 NumberHuge",
            // A number that needs more digits than are kept.
            7 => "7 NumberTooFine",
            // A row that was not given before.
            8 => "8 UnknownRow",
            // A column that was not given before.
            9 => "9 UnknownColumn",
            // A row again.
            10 => "10 DuplicateRow",
            // A second value for a row in a column, in RHS or in RANGES.
            11 => "11 DuplicateEntry",
            // A column again, behind lines of another column.
            12 => "12 ColumnSplit",
            // A type of a row that is none of the four.
            13 => "13 BadRowType",
            // A type of a bound that is none of the ten.
            14 => "14 BadBoundType",
            // A marker that neither begins nor ends the whole columns.
            15 => "15 BadMarker",
            // No row of type N.
            16 => "16 NoObjective",
            // No ENDATA.
            17 => "17 NoEnd",
            // A row, a column, an entry or a byte too many.
            18 => "18 TooMany",
            // The name of a row or a column is over 255 bytes.
            19 => "19 NameTooLong",
            // RANGES on a row of type N.
            20 => "20 RangeOnObjective",
            // A sense or a bound that is not in the profile.
            _ => "21 OutOfProfile",
        }
    }
}

impl fmt::Display for MpsKind {
    fn fmt<W: fmt::Write>(&self, f: &mut fmt::Formatter<W>) -> fmt::Result {
        let text = self.text();
        write!(f, "kind {text}")
    }
}

impl error::Error for MpsKind {}
