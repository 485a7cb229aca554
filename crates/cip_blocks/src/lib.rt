//! Blocks from texts that name the rows of each block of a program, in whatever pieces a text comes.
#![tactic(auto)]

mod block_text;
mod block_words;
mod ending;
mod kinds;
mod laws;
mod owners;
mod reader;
mod whole_text;
mod word_places;
mod words;

pub use block_text::BlockText;
pub use cip_text::{PieceReader, PieceText, ReadFault, TextFault};
pub use kinds::BlockKind;
pub use laws::known_block_faults_stay;
pub use reader::BlockReader;
pub use whole_text::read_blocks;
