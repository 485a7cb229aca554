//! Reading an LP text, in whatever pieces it comes.
use crate::lp_text::LpText;
use cip_text::PieceReader;

/// An LP text as far as it came. The reader keeps the bytes behind the last token that has ended, the statement in hand
/// and what the program needs, and nothing else of the text. A fault is known where a token that has ended is faulty,
/// or the text has over 67,108,864 bytes.
pub type LpReader = PieceReader<LpText>;
