//! Reading a text of blocks, in whatever pieces it comes.
use crate::block_text::BlockText;
use cip_text::PieceReader;

/// A text of blocks as far as it came. The reader keeps the line that has not ended, a place for each row of the
/// program and a mark for each block, and nothing else of the text. A fault is known where a line that has ended is
/// faulty. A reader is made of an allocator and the program.
pub type BlockReader<'a> = PieceReader<BlockText<'a>>;
