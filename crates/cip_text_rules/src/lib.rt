//! What texts say: free MPS, LP texts, points and blocks; the first fault of a text, long texts, and the same read line
//! by line and byte by byte. The contracts of the crates above speak of these definitions; `specs/` holds them, and the
//! laws for every such text.
// The function here does nothing. Its contract is a record of examples, so that the check computes them.
#![tactic(auto)]

pub mod block_examples;
pub mod block_steps;
pub mod blocks;
pub mod lp_examples;
pub mod lp_pieces;
pub mod lp_taken;
pub mod lp_texts;
pub mod mps_examples;
pub mod mps_texts;
pub mod point_examples;
pub mod point_steps;
pub mod points;
pub mod step_laws;
pub mod text_examples;
pub mod texts;

ghost use Rattle.cip_text_rules.specs.LineExamples.{LongTextsAreFaulty};

/// A text that is too long is faulty at the line of its first byte too many, unless there is a fault before, or a
/// lesser one on that line.
pub fn long_texts_are_faulty()
    ensures { LongTextsAreFaulty }
{}
