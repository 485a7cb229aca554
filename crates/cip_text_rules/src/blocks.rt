//! The laws of texts of blocks.
// Each function here does nothing. Its contract is one of the laws of the definitions, so that the check proves it.

ghost use Rattle.cip_text_rules.specs.BlockStatements.{BlocksHaveOneOutcome, BlockFaultsAreFirst, BlocksAreDescribed, BlockFaultsAreLeast, BlocksAreApart, BlocksAreOfNames};

/// A text has blocks or a first fault, never both, and one of each at the most.
pub fn blocks_have_one_outcome()
    ensures { BlocksHaveOneOutcome }
{}

/// The fault of a text of at most 67,108,864 bytes is that of its first faulty word; where no word has a fault it is
/// the one at the line behind the last, if there is one.
pub fn block_faults_are_first()
    ensures { BlockFaultsAreFirst }
{}

/// A text has blocks exactly where it has at most 67,108,864 bytes, no word has a fault, and there is none behind the
/// last line.
pub fn blocks_are_described()
    ensures { BlocksAreDescribed }
{}

/// The fault of a word, and that behind the last line, is a kind whose rule is broken there, and no lesser one is;
/// where there is no fault no rule is broken.
pub fn block_faults_are_least()
    ensures { BlockFaultsAreLeast }
{}

/// There are from 1 to 4,096 blocks. Each row is a master row or of one block; a block has the columns of which its
/// rows have entries; a column of a block has entries in rows of the block and in master rows alone, and two bounds;
/// the other columns are of no block.
pub fn blocks_are_apart()
    ensures { BlocksAreApart }
{}

/// No row is named twice, each that is named is one of the program, and a row is of the block that it was named for;
/// those that were named for none, or not at all, are master rows.
pub fn blocks_are_of_names()
    ensures { BlocksAreOfNames }
{}
