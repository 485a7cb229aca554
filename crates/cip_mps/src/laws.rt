//! Laws of texts that come in pieces, and of drafts.
// Each function here does nothing. Its contract is a law, so that the check proves it.
ghost use Rattle.cip_mps.specs.DraftSteps.{PlacesJoin};
ghost use Rattle.cip_text.specs.EndedFaults.{KnownFaultsStay};
ghost use Rattle.cip_text_rules.specs.MpsOutcome.{mps_reading};

use cip_text_rules::step_laws::{faults_of_ended_lines, faults_stay};

/// A fault that is known before a text ends is the text's, whatever follows, and stays known: so every later call of a
/// reader answers it.
pub fn known_faults_stay()
    ensures { KnownFaultsStay mps_reading }
{
    faults_of_ended_lines();
    faults_stay();
}

/// A draft and the place of the next line make up the state of a reader.
pub(crate) fn places_join()
    ensures { PlacesJoin }
{}
