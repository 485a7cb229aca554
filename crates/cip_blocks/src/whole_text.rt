//! Reading a text of blocks that is there as a whole.
ghost use Rattle.std.specs.Prelude.{MatchResult, IfOk};
ghost use Rattle.cip_text_rules.specs.LineTexts.{HasResult};
ghost use Rattle.cip_problem.specs.BlockMeaning.{AreBlocks};
ghost use Rattle.cip_text_rules.specs.BlockRules.{block_reading};
ghost use Rattle.cip_blocks.specs.EndedBlocks.{IsFaultOf};

use crate::kinds::BlockKind;
use crate::reader::BlockReader;
use cip_model::{Blocks, Program};
use cip_text::ReadFault;
use cip_text_rules::blocks::blocks_are_apart;
use std::alloc::Global;

/// The blocks that a text gives a program; else the first fault of the text: that of the first word that breaks a rule,
/// or the one at the line behind the last, with the least kind that is broken there. A text of more than 67,108,864
/// bytes is looked at as far as the first byte too many. `NoMemory` comes where a growth was refused.
pub fn read_blocks(
    alloc: Global,
    text: &[u8],
    program: &Program,
) -> Result<Blocks, ReadFault<BlockKind>>
    ensures blocks { MatchResult result (HasResult (block_reading program.now) text.now)
        (IsFaultOf program.now text.now) }
    ensures apart { IfOk result (AreBlocks program.now) }
{
    blocks_are_apart();
    let mut reader = BlockReader::new((alloc, program));
    reader.feed(text)?;
    reader.finish()
}
