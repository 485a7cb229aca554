//! A law of texts that come in pieces.
// The function here does nothing. Its contract is a law, so that the check proves it.
ghost use Rattle.cip_lp.specs.LpReaders.{KnownLpFaultsStay};

use cip_text_rules::lp_taken::taken_faults_stay;

/// A fault that is known before a text ends is the text's, whatever follows, and stays known: so every later call of a
/// reader answers it.
pub fn known_lp_faults_stay()
    ensures { KnownLpFaultsStay }
{
    taken_faults_stay();
}
