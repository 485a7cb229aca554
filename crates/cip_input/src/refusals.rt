//! Faulty texts, and what is printed of them.
ghost use Rattle.std.specs.Prelude.{◌≡◌, ◌≤◌, length};
ghost use Rattle.cip_input.specs.Refusals.{text_name, line_of, kind_text};

use crate::{BlockKind, ModelKind, PointKind, TextFault};

/// A faulty text: which one it is, and its fault.
#[derive(Clone, Copy)]
pub enum FaultyText {
    /// The text of the model.
    Model(TextFault<ModelKind>),
    /// The text of the blocks.
    Blocks(TextFault<BlockKind>),
    /// The text of the point.
    Point(TextFault<PointKind>),
}

impl From<TextFault<ModelKind>> for FaultyText {
    ghost use Rattle.std.specs.Prelude.{◌≡◌};
    ghost use Rattle.cip_input.specs.declared.refusals.FaultyText.{FaultyText};

    ghost from_gives = { λ fault text. text ≡ FaultyText.Model fault };

    fn from(fault: TextFault<ModelKind>) -> FaultyText {
        FaultyText::Model(fault)
    }
}

impl From<TextFault<BlockKind>> for FaultyText {
    ghost use Rattle.std.specs.Prelude.{◌≡◌};
    ghost use Rattle.cip_input.specs.declared.refusals.FaultyText.{FaultyText};

    ghost from_gives = { λ fault text. text ≡ FaultyText.Blocks fault };

    fn from(fault: TextFault<BlockKind>) -> FaultyText {
        FaultyText::Blocks(fault)
    }
}

impl From<TextFault<PointKind>> for FaultyText {
    ghost use Rattle.std.specs.Prelude.{◌≡◌};
    ghost use Rattle.cip_input.specs.declared.refusals.FaultyText.{FaultyText};

    ghost from_gives = { λ fault text. text ≡ FaultyText.Point fault };

    fn from(fault: TextFault<PointKind>) -> FaultyText {
        FaultyText::Point(fault)
    }
}

impl FaultyText {
    /// The word for the text.
    pub(crate) fn text(self) -> &'static [u8]
        ensures text { result.now ≡ text_name self }
        ensures short { length result.now ≤ 6 }
    {
        match self {
            FaultyText::Model(_) => b"model",
            FaultyText::Blocks(_) => b"blocks",
            FaultyText::Point(_) => b"point",
        }
    }

    /// The line, counted from 1.
    pub fn line(self) -> usize
        ensures { result ≡ line_of self }
    {
        match self {
            FaultyText::Model(fault) => fault.line,
            FaultyText::Blocks(fault) => fault.line,
            FaultyText::Point(fault) => fault.line,
        }
    }

    /// The number and the name of the kind.
    pub(crate) fn kind(self) -> &'static [u8]
        ensures text { result.now ≡ kind_text self }
        ensures short { length result.now ≤ 20 }
    {
        match self {
            FaultyText::Model(fault) => fault.kind.text().as_bytes(),
            FaultyText::Blocks(fault) => fault.kind.text().as_bytes(),
            FaultyText::Point(fault) => fault.kind.text().as_bytes(),
        }
    }
}
