//! How the node in work ends, once its box was looked at.
ghost use Rattle.std.specs.Prelude.{None, IfOk, MatchResult};
ghost use Rattle.cip_core.specs.CoreStates.{IsTakenUp, IsGivenBound};
ghost use Rattle.cip_core.specs.Steps.{IsBack};
ghost use Rattle.cip_node.specs.Looking.{CanWorkOn, IsLeafNode, IsOpenNode};
ghost use Rattle.cip_node.specs.NodeEnds.{HasEnded, IsLeafEnd};
ghost use Rattle.cip_node.specs.SameRows.{HasSameRows};

use crate::bounding::{Bounded, Found};
use crate::ends::{NodeEnd, NodeRecord};
use crate::leaves::solve_leaf;
use crate::settling::settle;
use crate::works::NodeWork;
use cip_core::Core;
use cip_frac::Frac;
use cip_tree::Node;
use std::alloc::{AllocError, Global};

/// Ends a node that is a leaf, whose region is the region in work. `Err` comes where memory was refused; the node is
/// open again then, with the bound that the log gave it.
pub fn end_leaf(
    core: &mut Core<'_>,
    alloc: Global,
    node: Node,
    given: Option<Frac>,
) -> Result<NodeEnd, AllocError>
    requires up { IsTakenUp core.old node }
    requires given { IsGivenBound core.old node.number given }
    requires leaf { IsLeafNode core.old node }
    ensures ended { MatchResult result (HasEnded core.old core.new node None)
        (λ _. IsBack core.old core.new node.number given) }
    ensures kind { IfOk result IsLeafEnd }
    ensures rows { HasSameRows core.old core.new }
{
    core.is_sound();
    let (program, reduced) = (core.program(), core.reduced());
    match solve_leaf(
        alloc,
        program,
        reduced,
        core.steps(),
        core.bounds(),
        core.choices(),
    ) {
        Err(error) => {
            core.go_back(node, given);
            Err(error)
        }
        Ok(solved) => Ok(settle(core, node, solved)),
    }
}

impl<'a> NodeWork<'a> {
    /// Ends a node whose region is the region in work, and in which a whole column has two whole values or a choice is
    /// open. `Err` comes where memory was refused; the node is open again then.
    pub(crate) fn end_open(
        &mut self,
        alloc: Global,
        node: Node,
    ) -> Result<(NodeEnd, NodeRecord), AllocError>
        requires can { CanWorkOn self.old.core node }
        requires open_ { IsOpenNode self.old.core node }
        ensures ended { MatchResult result
            (λ done. HasEnded self.old.core self.new.core node done.1.mark done.0)
            (λ _. IsBack self.old.core self.new.core node.number node.bound) }
        ensures rows { HasSameRows self.old.core self.new.core }
    {
        let given = node.bound();
        let mut node = node;
        match self.bound_in_rounds(alloc, &mut node) {
            Err(error) => {
                self.core.go_back(node, given);
                Err(error)
            }
            Ok(Bounded::Empty) => {
                self.core.close_empty(node);
                Ok((NodeEnd::Empty, NodeRecord { mark: None }))
            }
            Ok(Bounded::Open(found)) => {
                let ended = self.branch(node, given, &found);
                let Found { point, combo, mark } = found;
                self.starts.note(point);
                drop(combo);
                match ended {
                    Err(error) => {
                        drop(mark);
                        Err(error)
                    }
                    Ok(end) => Ok((end, NodeRecord { mark })),
                }
            }
        }
    }
}
