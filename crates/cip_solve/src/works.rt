//! What works on the nodes of a search: with plugins or without.
ghost use Rattle.std.specs.Prelude.{◌≡◌, ℕ, Bool, true, false, All, MatchResult};
ghost use Rattle.cip_problem.specs.WellFormed.{columns};
ghost use Rattle.cip_plugin.specs.Seats.{State, is_settled};
ghost use Rattle.cip_solve.specs.CoreStates.{reduced_of};
ghost use Rattle.cip_solve.specs.Steps.{IsBack};
ghost use Rattle.cip_solve.specs.Looking.{CanWorkOn};
ghost use Rattle.cip_solve.specs.NodesWorked.{HasWorked};
ghost use Rattle.cip_solve.specs.SplitsServed.{splits_by, HasServed};

use cip_node::{NodeEnd, NodeRecord, NodeWork};
use cip_tree::Node;
use std::alloc::{AllocError, Global};

/// What works on the nodes of a search, and who is asked meanwhile.
pub trait Works {
    ghost asks: { Bool };

    ghost state: { Self → State };

    ghost is_ready: { Self → ℕ → Type 0 };

    /// Works on a node that was taken up, until it has ended. `Err` comes where memory was refused; the node is open
    /// again then, with the bound that it was taken up with, and nothing is logged. Where nobody is asked, no row is
    /// added and no side tightened; where a node is split, each plugin that is on throughout was asked, if it is of a
    /// kind that works.
    fn work_on(
        &mut self,
        alloc: Global,
        work: &mut NodeWork<'_>,
        node: Node,
    ) -> Result<(NodeEnd, NodeRecord), AllocError>
        requires can { CanWorkOn work.old.core node }
        requires ready { is_ready self.old (columns (reduced_of work.old.core)) }
        ensures ended { MatchResult result
            (λ done. HasWorked work.old.core work.new.core node done.1.mark done.0)
            (λ _. IsBack work.old.core work.new.core node.number node.bound) }
        ensures plain { asks ≡ false → work.new.core.touched ≡ work.old.core.touched }
        ensures ready { is_ready self.new (columns (reduced_of work.new.core)) }
        ensures settled { All (λ seat. is_settled seat ≡ true) (state self.old).seats }
        ensures served { MatchResult result
            (λ done. HasServed (splits_by done.0) (state self.old) (state self.new))
            (λ _. HasServed 0 (state self.old) (state self.new)) };
}

/// Work without plugins: nobody is asked.
#[derive(Clone, Copy, Drop)]
pub struct Alone;

impl Works for Alone {
    ghost use Rattle.std.specs.Prelude.{[], false};

    ghost asks = { false };

    ghost state = { λ _. record { seats = []; places = []; names = []; lines = []; kept = false } };

    ghost is_ready = { λ _ _. Unit {0} };

    fn work_on(
        &mut self,
        alloc: Global,
        work: &mut NodeWork<'_>,
        node: Node,
    ) -> Result<(NodeEnd, NodeRecord), AllocError> {
        work.process(alloc, node)
    }
}
