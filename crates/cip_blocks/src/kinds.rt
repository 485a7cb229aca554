//! The kinds of faults of a text of blocks.
ghost use Rattle.std.specs.Prelude.{◌≡◌, ◌<◌, ◌≤◌, length};

use cip_text::FaultKind;
use std::{error, fmt};

/// A kind of fault. Of several rules that a word breaks, or that are broken behind the last line, the least kind
/// counts. It is known by its number, from 1 to 9; `text` has all of them.
#[derive(Clone, Copy, Debug)]
pub struct BlockKind {
    pub(crate) number: u32,
    ghost some: { 0 < number },
    ghost few: { number ≤ 9 },
}

impl FaultKind for BlockKind {
    ghost most = { 9 };

    ghost number_of = { λ kind. kind.number };

    fn of(number: u32) -> BlockKind {
        BlockKind { number }
    }
}

impl BlockKind {
    ghost use Rattle.cip_blocks.specs.BlockKindTexts.{kind_text};

    /// The number of the kind, from 1 to 9.
    pub fn number(self) -> u32
        ensures { result ≡ self.number }
    {
        self.number
    }

    /// The number and the name of the kind, as they are printed.
    pub fn text(self) -> &'static str
        ensures text { result.now ≡ kind_text self.number }
        ensures short { length result.now ≤ 20 }
    {
        match self.number {
            // A word out of its place, or `PRESOLVED` with another value than 0.
            1 => "1 BadWord",
            // A number of blocks that is not from 1 to 4,096.
            2 => "2 BadCount",
            // A block that is none of so many, or one again.
            3 => "3 BadBlock",
            // A name that no row of the program has.
            4 => "4 UnknownRow",
            // A row again.
            5 => "5 RowTwice",
            // A column with entries in two blocks.
            6 => "6 LinkingColumn",
            // A column of a block without two finite bounds.
            7 => "7 OpenColumn",
            // No `NBLOCKS`, or a block that was not begun.
            8 => "8 Missing",
            // A byte too many.
            _ => "9 TooLong",
        }
    }
}

impl fmt::Display for BlockKind {
    fn fmt<W: fmt::Write>(&self, f: &mut fmt::Formatter<W>) -> fmt::Result {
        let text = self.text();
        write!(f, "kind {text}")
    }
}

impl error::Error for BlockKind {}
