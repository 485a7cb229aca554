//! The kinds of faults of an LP text.
ghost use Rattle.std.specs.Prelude.{◌≡◌, ◌<◌, ◌≤◌, length};

use cip_text::FaultKind;
use std::{error, fmt};

/// A kind of fault. Of several rules that a token breaks the least kind counts. It is known by its number, from 1 to
/// 11; `text` has all of them.
#[derive(Clone, Copy, Debug)]
pub struct LpKind {
    pub(crate) number: u32,
    ghost some: { 0 < number },
    ghost few: { number ≤ 11 },
}

impl FaultKind for LpKind {
    ghost most = { 11 };

    ghost number_of = { λ kind. kind.number };

    fn of(number: u32) -> LpKind {
        LpKind { number }
    }
}

impl LpKind {
    ghost use Rattle.cip_lp.specs.LpKindTexts.{kind_text};

    /// The number of the kind, from 1 to 11.
    pub fn number(self) -> u32
        ensures { result ≡ self.number }
    {
        self.number
    }

    /// The number and the name of the kind, as they are printed.
    pub fn text(self) -> &'static str
        ensures text { result.now ≡ kind_text self.number }
        ensures short { length result.now ≤ 20 }
    {
        match self.number {
            // A byte that begins no token.
            1 => "1 BadToken",
            // A section again or out of order, or a token where no section was opened.
            2 => "2 SectionOrder",
            // A token that its statement can't have there.
            3 => "3 BadStatement",
            // A number above 2^127-1 in size.
            4 => "4 NumberHuge",
            // A number that needs more digits than are kept.
            5 => "5 NumberTooFine",
            // A row again, or one that is named as the objective.
            6 => "6 DuplicateRow",
            // A second number of a column in one form.
            7 => "7 DuplicateEntry",
            // No End.
            8 => "8 NoEnd",
            // A row, a column, an entry or a byte too many.
            9 => "9 TooMany",
            // A name of over 255 bytes.
            10 => "10 NameTooLong",
            // A section that is not in the profile, or a value of a bound on the wrong side.
            _ => "11 OutOfProfile",
        }
    }
}

impl fmt::Display for LpKind {
    fn fmt<W: fmt::Write>(&self, f: &mut fmt::Formatter<W>) -> fmt::Result {
        let text = self.text();
        write!(f, "kind {text}")
    }
}

impl error::Error for LpKind {}
