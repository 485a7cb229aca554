//! Reading a text of free MPS, in whatever pieces it comes.
use crate::mps_text::MpsText;
use cip_text::PieceReader;

/// A text of free MPS as far as it came. The reader keeps the line that has not ended and what the program needs, and
/// nothing else of the text. A fault is known where a line that has ended is faulty.
pub type MpsReader = PieceReader<MpsText>;
