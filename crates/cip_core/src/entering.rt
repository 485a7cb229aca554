//! The region in work: the box of a node, and its choices.
ghost use Rattle.std.specs.Prelude.{◌≡◌, IfOk};
ghost use Rattle.cip_tree.specs.Nodes.{region_of};
ghost use Rattle.cip_tree.specs.Walks.{IsEntered};
ghost use Rattle.cip_core.specs.CoreStates.{IsTakenUp};

use crate::cores::Core;
use cip_tree::Node;
use std::alloc::AllocError;

impl<'a> Core<'a> {
    /// Makes the region of a node the region in work. `false` is answered where the node's box has no point at all.
    /// `Err` comes where memory was refused.
    pub fn enter(&mut self, node: &Node) -> Result<bool, AllocError>
        requires { IsTakenUp self.old node.now }
        ensures entered { IfOk result (IsEntered self.new.tree.work (region_of self.new.tree node.now)) }
        ensures up { IsTakenUp self.new node.now }
        ensures frame { self.new ≡ record self.old {
          tree = record self.old.tree { work = self.new.tree.work };
        } }
    {
        self.tree.enter(node)
    }
}
