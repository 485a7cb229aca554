//! Nodes are taken up, and end without halves.
ghost use Rattle.std.specs.Prelude.{◌≡◌, ◌∷◌, [], false, MatchOption};
ghost use Rattle.cip_problem.specs.Log.{Closed, Parked, AllFollow, matters};
ghost use Rattle.cip_problem.specs.Improving.{HasNoImproving};
ghost use Rattle.cip_search.specs.Searched.{first_node};
ghost use Rattle.cip_search.specs.WideLeaf.{IsWideLeaf};
ghost use Rattle.cip_search.specs.SearchState.{IsStuck};
ghost use Rattle.cip_tree.specs.Moves.{TakesFirst};
ghost use Rattle.cip_tree.specs.Nodes.{box_of, shown};
ghost use Rattle.cip_core.specs.CoreStates.{reduced_of, way_of, held_of, IsKeptIn, IsTakenUp, IsGivenBound};
ghost use Rattle.cip_core.specs.Later.{IsLater};
ghost use Rattle.cip_core.specs.Steps.{LeavesEntry, HasLeft, IsBack};

use crate::cores::Core;
use crate::offering::{cost_of, let_go};
use cip_frac::Frac;
use cip_tree::Node;

impl<'a> Core<'a> {
    /// Takes up the first open node; `None` exactly where no node is open, which changes nothing.
    pub fn take(&mut self) -> Option<Node>
        requires { IsKeptIn self.old [] }
        ensures first { MatchOption result ((self.old.tree.open_ ≡ []) × (self.new ≡ self.old))
            (TakesFirst self.old.tree self.new.tree) }
        ensures up { MatchOption result (IsKeptIn self.new []) (IsTakenUp self.new) }
        ensures given { MatchOption result (IsKeptIn self.new [])
            (λ node. IsGivenBound self.new node.number node.bound) }
        ensures frame { self.new ≡ record self.old { tree = self.new.tree } }
    {
        self.tree.next()
    }

    /// Closes a node whose box has no improving point.
    pub fn close_empty(&mut self, node: Node)
        requires up { IsTakenUp self.old node }
        requires empty { HasNoImproving (reduced_of self.old) (held_of self.old) (box_of self.old.tree node) }
        ensures left { HasLeft self.old self.new node Closed }
        ensures frame { self.new ≡ record self.old { tree = self.new.tree } }
    {
        self.tree.close(node);
    }

    /// Closes a node whose bound isn't below the cost held.
    pub fn close_pruned(&mut self, node: Node)
        requires up { IsTakenUp self.old node }
        requires passed { matters (held_of self.old) node.bound ≡ false }
        ensures left { HasLeft self.old self.new node Closed }
        ensures frame { self.new ≡ record self.old { tree = self.new.tree } }
    {
        self.tree.close(node);
    }

    /// Puts a node aside that is a wide leaf of the program.
    pub fn park(&mut self, node: Node)
        requires up { IsTakenUp self.old node }
        requires stuck { IsStuck self.old.program (reduced_of self.old) (way_of self.old) IsWideLeaf
            (shown self.old.tree node) }
        ensures left { HasLeft self.old self.new node Parked }
        ensures frame { self.new ≡ record self.old { tree = self.new.tree } }
    {
        self.tree.park(node);
    }

    /// Puts a node aside from which the cost falls without end: the log is still one of the program.
    pub fn park_endless(&mut self, node: Node)
        requires { IsTakenUp self.old node }
        ensures entry { LeavesEntry self.old.tree self.new.tree (shown self.old.tree node) Parked }
        ensures logged { AllFollow (reduced_of self.new).integral
            (first_node (reduced_of self.new) self.new.tree.root.bound ∷ []) [] self.new.tree.log }
        ensures later { IsLater self.old self.new }
        ensures ids { self.new.tree.ids ≡ self.old.tree.ids }
        ensures frame { self.new ≡ record self.old { tree = self.new.tree } }
    {
        self.tree.park(node);
        let _log = self.tree.log();
    }

    /// Makes a node open again with the bound that the log gave it, unless it doesn't matter any more: the search can
    /// go on, as where memory was refused and was freed.
    pub fn go_back(&mut self, node: Node, bound: Option<Frac>)
        requires up { IsTakenUp self.old node }
        requires given { IsGivenBound self.old node.number bound }
        ensures back { IsBack self.old self.new node.number bound }
        ensures frame { self.new ≡ record self.old { tree = self.new.tree } }
    {
        let mut node = node;
        node.give_bound(bound);
        self.tree.put_back(node);
        let held = cost_of(&self.incumbent);
        let_go(&mut self.tree, &held);
    }
}
