//! Reading a text of a point, in whatever pieces it comes.
use crate::point_text::PointText;
use cip_text::PieceReader;

/// A text of a point as far as it came. The reader keeps the line that has not ended and a value for each column of the
/// program, and nothing else of the text. A fault is known where a line that has ended is faulty. A reader is made of
/// an allocator and the program.
pub type PointReader<'a> = PieceReader<PointText<'a>>;
