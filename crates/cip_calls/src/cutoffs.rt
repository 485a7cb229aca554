//! Combinations that are to show that a node has no improving point.
ghost use Rattle.std.specs.Prelude.{◌≡◌, length};
ghost use Rattle.cip_problem.specs.WellFormed.{columns};
ghost use Rattle.cip_problem.specs.Improving.{HasNoImproving};
ghost use Rattle.cip_cert.specs.Lent.{multiples_of};
ghost use Rattle.cip_tree.specs.Nodes.{box_of};
ghost use Rattle.cip_core.specs.CoreStates.{reduced_of, held_of, IsAtWork};
ghost use Rattle.cip_calls.specs.CutoffsJudged.{cutoff_answer};
ghost use Rattle.cip_calls.specs.declared.judged.Judged.TheVariants.{Emptied};

use crate::judged::{JudgeFault, Judged};
use cip_cert::{Scratch, empties};
use cip_core::Core;
use cip_lin::Combo;
use cip_tree::Node;

/// Judges a combination that is to show that a node in work has no improving point. `Emptied` comes exactly where the
/// check accepts it in the node's box, `Refused` with its fault exactly where it doesn't. Nothing changes.
pub fn judge_cutoff(core: &Core<'_>, node: &Node, combo: &Combo, scratch: &mut Scratch) -> Judged
    requires at_work { IsAtWork core.now node.now }
    requires room { length scratch.old.row.entries ≡ columns (reduced_of core.now) }
    ensures answer { result ≡ cutoff_answer core.now (multiples_of combo.now) }
    ensures emptied { result ≡ Emptied
        → HasNoImproving (reduced_of core.now) (held_of core.now) (box_of core.now.tree node.now) }
    ensures scratch { length scratch.new.row.entries ≡ length scratch.old.row.entries }
{
    let _ = node;
    core.is_sound();
    match empties(&core.rows(), core.bounds(), combo, scratch) {
        Ok(()) => Judged::Emptied,
        Err(fault) => Judged::Refused(JudgeFault::Check(fault)),
    }
}
