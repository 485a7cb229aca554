//! Examples of texts of blocks, by computation.
// Each function here does nothing. Its contract is a record of examples, so that the check computes them.

ghost use Rattle.cip_text_rules.specs.BlockExamples.{TextsHaveBlocks, EachBlockKindIsFound, BlockFaultsAreTold};

/// Texts have the blocks that were written out for them, with master rows and columns of no block.
pub fn texts_have_blocks()
    ensures { TextsHaveBlocks }
{}

/// Each kind of fault of a word, and each behind the last line, is found on a text of its own, at its line.
pub fn each_block_kind_is_found()
    ensures { EachBlockKindIsFound }
{}

/// Words out of place are told, and of several faults the first word's counts, then the least kind.
pub fn block_faults_are_told()
    ensures { BlockFaultsAreTold }
{}
