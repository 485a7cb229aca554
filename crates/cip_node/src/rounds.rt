//! The rounds of a node: its linear program, its point, and what may add rows.
ghost use Rattle.std.specs.Prelude.{◌≡◌, false, IfOk};
ghost use Rattle.cip_tree.specs.Nodes.{region_of};
ghost use Rattle.cip_core.specs.CoreStates.{IsAtWork};
ghost use Rattle.cip_core.specs.Later.{IsLaterAt};
ghost use Rattle.cip_node.specs.Bounding.{IsBounded};
ghost use Rattle.cip_node.specs.SameRows.{HasSameRows};

use crate::bounding::Bounded;
use crate::works::NodeWork;
use cip_tree::Node;
use std::alloc::{AllocError, Global};

// The most rounds in which rows are added.
const MOST_ROUNDS: u32 = 20;

impl<'a> NodeWork<'a> {
    /// Asks what may add rows after a linear program of a node in work was solved; whether a row was added. Nothing
    /// adds rows yet.
    fn add_rows(&mut self, node: &Node, bounded: &Bounded) -> bool
        requires { IsAtWork self.old.core node.now }
        ensures later { IsLaterAt self.old.core node.now self.new.core node.now }
        ensures region { region_of self.new.core.tree node.now ≡ region_of self.old.core.tree node.now }
        ensures none { result ≡ false → self.new.core ≡ self.old.core }
        ensures rows { HasSameRows self.old.core self.new.core }
    {
        let _ = node;
        let _ = bounded;
        false
    }

    /// Solves the linear program of a node in work, and again after each round that added a row, at most 20 times; what
    /// is answered is what the last one leaves. `Err` comes where memory was refused; the node is in work then.
    pub(crate) fn bound_in_rounds(
        &mut self,
        alloc: Global,
        node: &mut Node,
    ) -> Result<Bounded, AllocError>
        requires { IsAtWork self.old.core node.old }
        ensures later { IsLaterAt self.old.core node.old self.new.core node.new }
        ensures bounded { IfOk result (IsBounded self.new.core node.new) }
        ensures region { region_of self.new.core.tree node.new ≡ region_of self.old.core.tree node.old }
        ensures rows { HasSameRows self.old.core self.new.core }
    {
        for _ in 0..MOST_ROUNDS {
            let last = self.bound(alloc, node)?;
            if !self.add_rows(node, &last) {
                return Ok(last);
            }
            drop(last);
        }
        self.bound(alloc, node)
    }
}
