//! The kinds of faults of a text of a point.
ghost use Rattle.std.specs.Prelude.{◌≡◌, ◌<◌, ◌≤◌, length};

use cip_text::FaultKind;
use std::{error, fmt};

/// A kind of fault. Of several rules that a line breaks the least kind counts. It is known by its
/// number, from 1 to 6; `text` has all of them.
#[derive(Clone, Copy, Debug)]
pub struct PointKind {
    pub(crate) number: u32,
    ghost some: { 0 < number },
    ghost few: { number ≤ 6 },
}

impl FaultKind for PointKind {
    ghost most = { 6 };

    ghost number_of = { λ kind. kind.number };

    fn of(number: u32) -> PointKind {
        PointKind { number }
    }
}

impl PointKind {
    ghost use Rattle.cip_input.specs.PointKindTexts.{kind_text};

    /// The number of the kind, from 1 to 6.
    pub fn number(self) -> u32
        ensures { result ≡ self.number }
    {
        self.number
    }

    /// The number and the name of the kind, as they are printed.
    pub fn text(self) -> &'static str
        ensures text { result.now ≡ kind_text self.number }
        ensures short { length result.now ≤ 20 }
    {
        match self.number {
            // A line that has not two fields.
            1 => "1 BadLine",
            // A name that no column of the program has.
            2 => "2 UnknownColumn",
            // A column again.
            3 => "3 ColumnTwice",
            // A text that is no fraction, one with 0 below the line, or one out of range.
            4 => "4 BadFraction",
            // A column without a line.
            5 => "5 ColumnMissing",
            // A byte too many.
            _ => "6 TooLong",
        }
    }
}

impl fmt::Display for PointKind {
    fn fmt<W: fmt::Write>(&self, f: &mut fmt::Formatter<W>) -> fmt::Result {
        let text = self.text();
        write!(f, "kind {text}")
    }
}

impl error::Error for PointKind {}
