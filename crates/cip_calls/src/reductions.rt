//! Sides that are proposed.
ghost use Rattle.std.specs.Prelude.{◌≡◌, length, None, IfOk, MatchResult};
ghost use Rattle.cip_problem.specs.WellFormed.{columns};
ghost use Rattle.cip_problem.specs.Improving.{HasNoImproving};
ghost use Rattle.cip_cert.specs.Lent.{multiples_of};
ghost use Rattle.cip_tree.specs.Nodes.{box_of};
ghost use Rattle.cip_core.specs.CoreStates.{reduced_of, held_of, IsAtWork};
ghost use Rattle.cip_core.specs.Later.{IsLaterAt};
ghost use Rattle.cip_domain.specs.declared.stores.Tightened.{Tightened};
ghost use Rattle.cip_calls.specs.ReductionsJudged.{side_fault as fault_of_side, side_checked, reduction_answer, IsAfterReduction};
ghost use Rattle.cip_calls.specs.ReductionsJudged.{unless_faulty, by_check, judged_by, IsSideShown};
ghost use Rattle.cip_calls.specs.declared.judged.Judged.TheVariants.{Emptied};

use crate::judged::{JudgeFault, Judged, NodeFault};
use cip_cert::{Scratch, reduction};
use cip_core::{Core, Program};
use cip_domain::Tightened;
use cip_frac::Frac;
use cip_plugin::Reduction;
use cip_tree::Node;
use std::alloc::AllocError;

/// What a value for a side names that isn't there, or is too far away.
fn side_fault(program: &Program, col: u32, value: Frac) -> Option<NodeFault>
    ensures { result ≡ fault_of_side program.now col value }
{
    if col as usize >= program.columns() {
        return Some(NodeFault::NoSuchColumn);
    }
    if program.whole()[col as usize]
        && (1 << 100 < value.ceil().unsigned_abs() || 1 << 100 < value.floor().unsigned_abs())
    {
        return Some(NodeFault::TooFar);
    }
    None
}

/// Why a side that is proposed is refused: by what it names, or else by the check of its combination.
fn refusal(core: &Core<'_>, told: &Reduction, scratch: &mut Scratch) -> Option<JudgeFault>
    requires long { length core.now.tree.work.box ≡ columns (reduced_of core.now) }
    requires room { length scratch.old.row.entries ≡ columns (reduced_of core.now) }
    ensures answer { (outcome : Tightened) → judged_by result outcome
        ≡ unless_faulty (fault_of_side (reduced_of core.now) told.now.col told.now.value) (by_check
        (side_checked core.now told.now.col told.now.side told.now.value (multiples_of told.now.combo)) outcome) }
    ensures shown { result ≡ None → IsSideShown core.now told.now.col told.now.side told.now.value }
    ensures room { length scratch.new.row.entries ≡ length scratch.old.row.entries }
{
    core.is_sound();
    if let Some(fault) = side_fault(core.reduced(), told.col, told.value) {
        return Some(JudgeFault::Node(fault));
    }
    match reduction(
        &core.rows(),
        core.bounds(),
        told.col,
        told.side,
        told.value,
        &told.combo,
        scratch,
    ) {
        Err(fault) => Some(JudgeFault::Check(fault)),
        Ok(_) => None,
    }
}

/// Judges a side that is proposed while a node is in work. `Accepted` comes exactly where the column is one of the
/// reduced program's, its value isn't too far away where that is whole, the check of its combination accepts it in the
/// node's box, and it leaves the column a value: then the side of the node's box is at least as strong. `Emptied`
/// comes exactly where it leaves none: the node has no improving point. `Refused` comes with what it names first, and
/// else with the fault of the check. Nothing changes but at `Accepted`; nor does it at `Err`, which comes where memory
/// was refused.
pub fn judge_reduction(
    core: &mut Core<'_>,
    node: &mut Node,
    told: &Reduction,
    scratch: &mut Scratch,
) -> Result<Judged, AllocError>
    requires at_work { IsAtWork core.old node.old }
    requires room { length scratch.old.row.entries ≡ columns (reduced_of core.old) }
    ensures answer { IfOk result (λ judged. judged ≡ reduction_answer core.old told.now.col told.now.side
        told.now.value (multiples_of told.now.combo)) }
    ensures after { MatchResult result (λ judged. IsAfterReduction judged core.old core.new node.old node.new
        told.now.col told.now.side told.now.value) (λ _. (core.new ≡ core.old) × (node.new ≡ node.old)) }
    ensures emptied { IfOk result (λ judged. judged ≡ Emptied
        → HasNoImproving (reduced_of core.old) (held_of core.old) (box_of core.old.tree node.old)) }
    ensures later { IsLaterAt core.old node.old core.new node.new }
    ensures scratch { length scratch.new.row.entries ≡ length scratch.old.row.entries }
{
    core.is_sound();
    if let Some(fault) = refusal(core, told, scratch) {
        return Ok(Judged::Refused(fault));
    }
    let outcome = core.tighten(node, told.col, told.side, told.value)?;
    let came = match outcome {
        Tightened::Yes => Judged::Accepted,
        Tightened::Same => Judged::Accepted,
        Tightened::Empty => Judged::Emptied,
    };
    Ok(came)
}
