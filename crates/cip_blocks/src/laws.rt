//! Laws of texts of blocks that come in pieces.
// The function here does nothing. Its contract is a law, so that the check proves it.
ghost use Rattle.cip_blocks.specs.KnownBlockFaults.{KnownBlockFaultsStay};

use cip_text_rules::block_steps::{block_faults_of_ended_lines, block_faults_stay};

/// A fault that is known before a text ends is the text's, whatever follows, and stays known: so every later call of a
/// reader answers it. The program's rows have different names.
pub fn known_block_faults_stay()
    ensures { KnownBlockFaultsStay }
{
    block_faults_of_ended_lines();
    block_faults_stay();
}
