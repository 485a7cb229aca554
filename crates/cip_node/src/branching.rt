//! A node that is open is pruned or split.
ghost use Rattle.std.specs.Prelude.{◌≡◌, ◌<◌, ◌^◌, length, IfSome, MatchOption, MatchResult};
ghost use Rattle.cip_problem.specs.WellFormed.{columns};
ghost use Rattle.cip_node_rules.specs.OpenChoices.{IsSettledBox};
ghost use Rattle.cip_tree.specs.Nodes.{box_of};
ghost use Rattle.cip_core.specs.CoreStates.{reduced_of, IsTakenUp, IsGivenBound};
ghost use Rattle.cip_core.specs.Steps.{IsBack};
ghost use Rattle.cip_node.specs.Bounding.{point_of, IsFound, IsSplitBy};
ghost use Rattle.cip_node.specs.Looking.{IsOpenNode};
ghost use Rattle.cip_node.specs.NodeEnds.{HasEnded};
ghost use Rattle.cip_node.specs.SameRows.{HasSameRows};

use crate::bounding::Found;
use crate::ends::NodeEnd;
use crate::starts::Starts;
use crate::works::NodeWork;
use cip_core::Core;
use cip_frac::Frac;
use cip_node_rules::{SplitPlace, chosen_place, matters};
use cip_tree::Node;
use std::alloc::AllocError;

/// Where the region in work is split: by the point of its linear program, if there is one, else by the last linear
/// values, if a linear program had a point. `None` exactly where no whole column has two whole values and no choice is
/// open.
fn place_by(core: &Core<'_>, starts: &Starts, found: &Found) -> Option<SplitPlace>
    requires columns { length core.now.tree.work.box ≡ columns (reduced_of core.now) }
    requires values { IfSome (point_of found.now) (λ values. length values ≡ length core.now.tree.work.box) }
    ensures { MatchOption result
        (IsSettledBox (reduced_of core.now).integral core.now.tree.work.box core.now.tree.work.choices)
        (λ place. IsSplitBy (reduced_of core.now).integral core.now.tree.work (point_of found.now) place.col place.at) }
{
    core.is_sound();
    let reduced = core.reduced();
    let columns = reduced.columns();
    let (whole, bounds, choices) = (reduced.whole(), core.bounds(), core.choices());
    match &found.point {
        Some(own) => chosen_place(whole, bounds, choices, Some(own.as_slice())),
        None => chosen_place(whole, bounds, choices, starts.last_values(columns)),
    }
}

impl<'a> NodeWork<'a> {
    /// Closes a node whose bound isn't below the cost held, and splits any other by the rules, by the point of its last
    /// linear program, or by the last linear values, where that has none. `Err` comes where memory was refused; the
    /// node is open again then, with the bound that it had when it was taken up.
    pub fn branch(
        &mut self,
        node: Node,
        given: Option<Frac>,
        found: &Found,
    ) -> Result<NodeEnd, AllocError>
        requires up { IsTakenUp self.old.core node × (self.old.core.tree.ids < 2 ^ 63) }
        requires given { IsGivenBound self.old.core node.number given }
        requires open_ { IsOpenNode self.old.core node }
        requires found { IsFound self.old.core (box_of self.old.core.tree node) node.bound found.now }
        ensures ended { MatchResult result (HasEnded self.old.core self.new.core node found.now.mark)
            (λ _. IsBack self.old.core self.new.core node.number given) }
        ensures rows { HasSameRows self.old.core self.new.core }
    {
        if !matters(self.core.held_cost(), node.bound()) {
            self.core.close_pruned(node);
            return Ok(NodeEnd::Pruned);
        }
        self.core.is_sound();
        match place_by(&self.core, &self.starts, found) {
            None => unreachable!(),
            Some(SplitPlace { col, at }) => {
                let (low, high) = self.core.split(node, given, col, at)?;
                let waiting = self.core.tree().open_count();
                self.starts.hand_on(low, waiting);
                Ok(NodeEnd::Split(low, high))
            }
        }
    }
}
