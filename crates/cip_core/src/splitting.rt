//! Nodes are split.
ghost use Rattle.std.specs.Prelude.{◌≡◌, ◌<◌, ◌^◌, ◌+◌, length, MatchResult};
ghost use Rattle.cip_problem.specs.Log.{Split};
ghost use Rattle.cip_problem.specs.Wholes.{AllHaveWholes};
ghost use Rattle.cip_tree.specs.Nodes.{region_of as node_region, box_of};
ghost use Rattle.cip_core.specs.CoreStates.{reduced_of, IsAtWork, IsGivenBound};
ghost use Rattle.cip_core.specs.KeptNodes.{farthest};
ghost use Rattle.cip_core.specs.SplitPlaces.{IsSplitPlace};
ghost use Rattle.cip_core.specs.Steps.{HasLeft, IsBack};

use crate::cores::Core;
use crate::offering::{cost_of, let_go};
use cip_frac::Frac;
use cip_tree::{Node, SplitFault};
use std::alloc::AllocError;

impl<'a> Core<'a> {
    /// Splits a node at a whole column, where both sides keep a whole value, or at a column whose choice is open: it
    /// has ended, and the halves are open, with the numbers that are answered, unless they don't matter. `Err` comes
    /// where memory was refused; the node is open again then, with the bound that the log gave it.
    pub fn split(
        &mut self,
        node: Node,
        given: Option<Frac>,
        col: u32,
        at: i128,
    ) -> Result<(u64, u64), AllocError>
        requires at_work { IsAtWork self.old node }
        requires given { IsGivenBound self.old node.number given }
        requires wholes { AllHaveWholes (reduced_of self.old).integral (box_of self.old.tree node) }
        requires place { (self.old.tree.ids < 2 ^ 63) × (col < length (reduced_of self.old).integral)
            × IsSplitPlace (reduced_of self.old).integral (node_region self.old.tree node)
            (farthest self.old.tree.ids + 1) col at }
        ensures split { MatchResult result
            (λ halves. HasLeft self.old self.new node (Split col at halves.0 halves.1))
            (λ _. IsBack self.old self.new node.number given) }
        ensures frame { self.new ≡ record self.old { tree = self.new.tree } }
    {
        match self.tree.split(&node, col, at) {
            Ok(halves) => {
                let _log = self.tree.log();
                let held = cost_of(&self.incumbent);
                let_go(&mut self.tree, &held);
                Ok(halves)
            }
            Err(SplitFault::NoMemory) => {
                self.go_back(node, given);
                Err(AllocError)
            }
            Err(_) => unreachable!(),
        }
    }
}
