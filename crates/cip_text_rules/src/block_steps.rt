//! A reader of texts of blocks on plain values: a place for each row and a mark for each block, the tests and the put
//! of a word, and bytes taken one by one. The contracts of the code are over these steps; the laws tie them to the
//! definitions of a text.
// Each function here does nothing. Its contract is a law of the steps, so that the check proves it.

ghost use Rattle.cip_text_rules.specs.BlockOwners.{OwnersAreRight};
ghost use Rattle.cip_text_rules.specs.BlockStepStatements.{BlocksAreRead, BlockFaultsOfEndedLines, BlockFaultsStay, BlockWordsHaveTests, BlockStatesAreSound};

/// A text that is read byte by byte comes to exactly the blocks or the first fault of the text, for a program whose
/// rows have different names.
pub fn blocks_are_read()
    ensures { BlocksAreRead }
{}

/// Before a text ends a fault is known exactly where the text, as far as it was read, is faulty at a line that has
/// ended.
pub fn block_faults_of_ended_lines()
    ensures { BlockFaultsOfEndedLines }
{}

/// A fault that is known before a text ends is the text's, whatever follows, and stays known.
pub fn block_faults_stay()
    ensures { BlockFaultsStay }
{}

/// The least kind of a word is that of the tests that such a word can fail: one at the most, and two of a name.
pub fn block_words_have_tests()
    ensures { BlockWordsHaveTests }
{}

/// There is a place for each row and a mark for each of at most 4,096 blocks, and the blocks of rows are among them,
/// before the first word and behind each without fault.
pub fn block_states_are_sound()
    ensures { BlockStatesAreSound }
{}

/// One pass over the rows tells whether a column has entries in two blocks, whether it is of a block, and, where none
/// has entries in two, of which.
pub fn owners_are_right()
    ensures { OwnersAreRight }
{}
