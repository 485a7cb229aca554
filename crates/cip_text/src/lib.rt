//! Texts: lines and their fields, number texts and texts of fractions; a text in pieces, its faults, and its reader.
#![tactic(auto)]

mod decide;
mod digits;
mod faults;
mod fields;
mod fraction_text;
mod laws;
mod line_cuts;
mod number_text;
mod one_line;
mod parts;
mod piece_cuts;
mod piece_reader;
mod pieces;
mod reading;
mod text_faults;
mod text_lines;

pub use faults::KnownFault;
pub use fields::fields_of;
pub use fraction_text::fraction;
pub use laws::star_begins_comments;
pub use line_cuts::lines;
pub use number_text::{NumberFault, number};
pub use one_line::record_of;
pub use piece_cuts::cut_line;
pub use piece_reader::{PieceReader, PieceText};
pub use pieces::Pieces;
pub use text_faults::{FaultKind, ReadFault, TextFault, told};
pub use text_lines::{Fields, Lines, TextLine};
