//! The work on a node.
ghost use Rattle.std.specs.Prelude.{◌≡◌, MatchResult};
ghost use Rattle.cip_core.specs.Steps.{IsBack, aged};
ghost use Rattle.cip_node.specs.Looking.{CanWorkOn, IsLook};
ghost use Rattle.cip_node.specs.NodeEnds.{HasEnded};
ghost use Rattle.cip_node.specs.SameRows.{HasSameRows};

use crate::ending::end_leaf;
use crate::ends::{NodeEnd, NodeRecord};
use crate::looks::look;
use crate::works::NodeWork;
use cip_node_rules::Looked;
use cip_tree::Node;
use std::alloc::{AllocError, Global};

impl<'a> NodeWork<'a> {
    /// Ends a node by the look of its region. `Err` comes where memory was refused; the node is open again then.
    fn end(
        &mut self,
        alloc: Global,
        node: Node,
        looked: Looked,
    ) -> Result<(NodeEnd, NodeRecord), AllocError>
        requires can { CanWorkOn self.old.core node }
        requires look { IsLook self.old.core node looked }
        ensures ended { MatchResult result
            (λ done. HasEnded self.old.core self.new.core node done.1.mark done.0)
            (λ _. IsBack self.old.core self.new.core node.number node.bound) }
        ensures rows { HasSameRows self.old.core self.new.core }
    {
        match looked {
            Looked::Empty => {
                self.core.close_empty(node);
                Ok((NodeEnd::Empty, NodeRecord { mark: None }))
            }
            Looked::Leaf => {
                let given = node.bound();
                let ended = end_leaf(&mut self.core, alloc, node, given);
                match ended {
                    Err(error) => Err(error),
                    Ok(end) => Ok((end, NodeRecord { mark: None })),
                }
            }
            Looked::Open => self.end_open(alloc, node),
        }
    }

    /// Works on a node that was taken up, until it has ended; what was met is told, too. The pool ages once. `Err`
    /// comes where memory was refused; the node is open again then, with the bound that it was taken up with, and
    /// nothing is logged: where memory was freed, the search can go on.
    pub fn process(
        &mut self,
        alloc: Global,
        node: Node,
    ) -> Result<(NodeEnd, NodeRecord), AllocError>
        requires { CanWorkOn self.old.core node }
        ensures ended { MatchResult result
            (λ done. HasEnded self.old.core self.new.core node done.1.mark done.0)
            (λ _. IsBack self.old.core self.new.core node.number node.bound) }
        ensures aged { self.new.core.pool ≡ aged self.old.core.pool }
        ensures touched { self.new.core.touched ≡ self.old.core.touched }
    {
        self.core.age();
        self.starts.turn_to(node.id());
        match look(&mut self.core, &node) {
            Err(error) => {
                let bound = node.bound();
                self.core.go_back(node, bound);
                Err(error)
            }
            Ok(looked) => self.end(alloc, node, looked),
        }
    }
}
