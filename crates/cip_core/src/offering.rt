//! Points are offered.
ghost use Rattle.std.specs.Prelude.{◌≡◌, ◌≢◌, Err, length, MatchResult};
ghost use Rattle.cip_problem.specs.WellFormed.{columns};
ghost use Rattle.cip_model.specs.Verdicts.{verdict_of};
ghost use Rattle.cip_model.specs.declared.verdicts.Verdict.TheVariants.{Feasible};
ghost use Rattle.cip_presolve.specs.declared.faults.PostsolveFault.TheVariants.{NoMemory};
ghost use Rattle.cip_core.specs.CoreStates.{reduced_of, IsAtWork};
ghost use Rattle.cip_core.specs.CutoffRow.{with_high};
ghost use Rattle.cip_core.specs.KeptNodes.{cost_held};
ghost use Rattle.cip_core.specs.Later.{IsLaterAt};
ghost use Rattle.cip_core.specs.Steps.{IsTrimmed, IsOffered, IsTriedBack, IsOfferedBack, IsNotBack};

use crate::cores::Core;
use crate::costs::side_of;
use cip_frac::Frac;
use cip_incumbent::{Incumbent, Offered};
use cip_lin::Row;
use cip_presolve::{PostsolveFault, postsolve};
use cip_tree::{Node, Tree};
use std::alloc::Global;

/// The cost of the point held, if one is.
pub fn cost_of(incumbent: &Incumbent) -> Option<Frac>
    ensures { result ≡ cost_held incumbent.now }
{
    match incumbent.held() {
        None => None,
        Some((cost, _)) => Some(cost),
    }
}

/// Sets the high side of a row, if there is one.
fn set_side(row: &mut Option<Row>, side: Option<Frac>)
    ensures { row.new ≡ with_high row.old side }
{
    if let Some(row) = row {
        row.set_high(side);
    }
}

/// Lets go of the open nodes that don't matter beside what is held.
pub(crate) fn let_go(tree: &mut Tree, held: &Option<Frac>)
    ensures { IsTrimmed tree.old tree.new held.now }
{
    if let Some(cost) = held {
        tree.close_from(*cost);
    }
}

impl<'a> Core<'a> {
    /// Offers a point of the program as read, while a node is in work: it is held, if it is feasible and cheaper than
    /// the point held. Then the cutoff row is that of its cost, and open nodes that don't matter any more are let go.
    pub fn offer(&mut self, node: &Node, point: &[Frac]) -> Offered
        requires at_work { IsAtWork self.old node.now }
        requires values { length point.now ≡ columns self.old.program }
        ensures offered { IsOffered self.old self.new point.now result }
        ensures later { IsLaterAt self.old node.now self.new node.now }
        ensures frame { self.new ≡ record self.old { tree = self.new.tree; incumbent = self.new.incumbent } }
    {
        let _columns = self.program.columns();
        let _left = self.reduced.columns();
        let answer = self.incumbent.offer(self.program, point);
        let held = cost_of(&self.incumbent);
        let side = side_of(self.reduced, &held);
        set_side(&mut self.cutoff, side);
        let_go(&mut self.tree, &held);
        answer
    }

    /// Offers a point that is known to be feasible at this cost, as `offer` does, and doesn't test it again.
    pub fn offer_at(&mut self, node: &Node, cost: Frac, point: &[Frac]) -> Offered
        requires at_work { IsAtWork self.old node.now }
        requires values { length point.now ≡ columns self.old.program }
        requires found { verdict_of self.old.program point.now ≡ Feasible cost }
        ensures offered { IsOffered self.old self.new point.now result }
        ensures later { IsLaterAt self.old node.now self.new node.now }
        ensures frame { self.new ≡ record self.old { tree = self.new.tree; incumbent = self.new.incumbent } }
    {
        let _columns = self.program.columns();
        let _left = self.reduced.columns();
        let answer = self.incumbent.offer_at(cost, point);
        let held_now = cost_of(&self.incumbent);
        let side = side_of(self.reduced, &held_now);
        set_side(&mut self.cutoff, side);
        let_go(&mut self.tree, &held_now);
        answer
    }

    /// Offers what a point of the reduced program comes back as, as `offer` does. `Wide` comes exactly where a number
    /// on the way back isn't in range, `NoMemory` where memory was refused; both leave all as it was.
    pub fn offer_back(
        &mut self,
        alloc: Global,
        node: &Node,
        point: &[Frac],
    ) -> Result<Offered, PostsolveFault>
        requires at_work { IsAtWork self.old node.now }
        requires values { length point.now ≡ columns (reduced_of self.old) }
        ensures offered { MatchResult result (IsOfferedBack self.old self.new point.now)
            (IsNotBack self.old self.new point.now) }
        ensures tried { result ≢ Err NoMemory → IsTriedBack self.new point.now }
        ensures later { IsLaterAt self.old node.now self.new node.now }
        ensures frame { self.new ≡ record self.old { tree = self.new.tree; incumbent = self.new.incumbent } }
    {
        self.is_sound();
        match postsolve(alloc, self.steps, point) {
            Err(fault) => Err(fault),
            Ok(values) => Ok(self.offer(node, values.as_slice())),
        }
    }
}
