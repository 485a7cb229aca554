//! Laws of texts of points that come in pieces.
// The function here does nothing. Its contract is a law, so that the check proves it.
ghost use Rattle.cip_input.specs.KnownPointFaults.{KnownPointFaultsStay};

use cip_text_rules::point_steps::{point_faults_of_ended_lines, point_faults_stay};

/// A fault that is known before a text ends is the text's, whatever follows, and stays known: so every later call of a
/// reader answers it. The program's columns have different names.
pub fn known_point_faults_stay()
    ensures { KnownPointFaultsStay }
{
    point_faults_of_ended_lines();
    point_faults_stay();
}
