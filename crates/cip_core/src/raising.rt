//! Bounds of nodes in work.
ghost use Rattle.std.specs.Prelude.{◌≡◌, Some, MatchBool};
ghost use Rattle.cip_problem.specs.Improving.{IsBoundIn};
ghost use Rattle.cip_search.specs.Searched.{NoMore};
ghost use Rattle.cip_tree.specs.Nodes.{box_of};
ghost use Rattle.cip_core.specs.CoreStates.{reduced_of, held_of, IsAtWork};
ghost use Rattle.cip_core.specs.Later.{IsLaterAt};
ghost use Rattle.cip_core.specs.Steps.{IsRaisedTo};

use crate::cores::Core;
use cip_frac::Frac;
use cip_node_rules::rounded_bound;
use cip_tree::Node;

/// Whether a bound is at most another, as it is where there is none.
fn is_weaker(own: Option<Frac>, bound: Frac) -> bool
    ensures { MatchBool result (NoMore own (Some bound)) (NoMore (Some bound) own) }
{
    match own {
        None => true,
        Some(own) => own <= bound,
    }
}

impl<'a> Core<'a> {
    /// Gives a node in work a bound that holds in its box, rounded up where costs are whole, if it is greater than its
    /// own.
    pub fn raise(&self, node: &mut Node, bound: Frac)
        requires at_work { IsAtWork self.now node.old }
        requires holds { IsBoundIn (reduced_of self.now) (held_of self.now) (box_of self.now.tree node.old) bound }
        ensures later { IsLaterAt self.now node.old self.now node.new }
        ensures raised { IsRaisedTo self.now bound node.new.bound }
        ensures node { node.new ≡ record node.old { bound = node.new.bound } }
    {
        let rounded = rounded_bound(bound, self.whole_costs);
        if is_weaker(node.bound(), rounded) {
            node.raise(rounded);
        }
    }
}
