//! What plugins gave is judged, one proposal after the other.
ghost use Rattle.std.specs.Prelude.{◌≡◌, ◌≢◌, ◌++◌, false, length, IfOk, OnOk, IsSome, slice_get};
ghost use Rattle.cip_plugin.specs.Asking.{answer_of};
ghost use Rattle.cip_plugin.specs.Calls.{Separate, Propagate, Search};
ghost use Rattle.cip_roster.specs.Turns.{IsSound};
ghost use Rattle.cip_calls.specs.ProposalsJudged.{IsShownEmpty};
ghost use Rattle.cip_tree.specs.Nodes.{region_of};
ghost use Rattle.cip_calls.specs.declared.judged.Judged.TheVariants.{Accepted as WasAccepted, Emptied as ShownEmpty};
ghost use Rattle.cip_calls.specs.Asked.{ask_in, told as told_of, proposers, AreSeated};
ghost use Rattle.cip_calls.specs.Noted.{IsReady, IsSameNode, HasGone, HasJudged, makers};
ghost use Rattle.cip_calls.specs.Served.{count_for};
ghost use Rattle.cip_calls.specs.declared.asks.Round.TheVariants.{Cuts as OfCuts, Sides as OfSides};
ghost use Rattle.cip_calls.specs.declared.judging.Came.TheVariants.{Quiet, Accepted, Emptied};

use crate::asks::{Asks, Round};
use crate::plugins::{Plugins, keep_guess};
use crate::{Core, Judged, Side, judge_cut, judge_guess, judge_reduction};
use cip_events::{Event, EventKind};
use cip_lin::Sides;
use cip_plugin::{Cut, Given, Guess, Reduction};
use cip_tree::Node;
use std::alloc::AllocError;

/// What became of proposals.
#[derive(Clone, Copy)]
pub enum Came {
    /// None was accepted.
    Quiet,
    /// One was, or more.
    Accepted,
    /// One showed that the node has no improving point: those behind it weren't looked at.
    Emptied,
}

/// The cuts that were given, if it is these.
fn cuts_of(given: &Given) -> &[Cut]
    ensures { length result.now ≡ count_for Separate (answer_of given.now) }
{
    match given {
        Given::Cuts(cuts) => cuts.as_slice(),
        Given::Reductions(_) => &[],
        Given::Priced(_) => &[],
        Given::Guesses(_) => &[],
        Given::Split(_) => &[],
        Given::Enforced(_) => &[],
        Given::Wishes(_) => &[],
    }
}

/// The sides that were given, if it is these.
fn sides_of(given: &Given) -> &[Reduction]
    ensures { length result.now ≡ count_for Propagate (answer_of given.now) }
{
    match given {
        Given::Reductions(sides) => sides.as_slice(),
        Given::Cuts(_) => &[],
        Given::Priced(_) => &[],
        Given::Guesses(_) => &[],
        Given::Split(_) => &[],
        Given::Enforced(_) => &[],
        Given::Wishes(_) => &[],
    }
}

/// The points that were given, if it is these.
fn points_of(given: &Given) -> &[Guess]
    ensures { length result.now ≡ count_for Search (answer_of given.now) }
{
    match given {
        Given::Guesses(points) => points.as_slice(),
        Given::Cuts(_) => &[],
        Given::Reductions(_) => &[],
        Given::Priced(_) => &[],
        Given::Split(_) => &[],
        Given::Enforced(_) => &[],
        Given::Wishes(_) => &[],
    }
}

/// The sides of a column in the box in work, if it is there.
fn sides_at(core: &Core<'_>, col: u32) -> Option<Sides> {
    core.bounds().as_slice().get(col as usize).copied()
}

/// What is told of a cut or a point that was judged at a node: this, where it was accepted.
fn event_of(node: u64, came: &Judged, accepted: EventKind) -> Option<Event> {
    match came {
        Judged::Accepted => Some(Event::at(node, accepted)),
        Judged::NotBetter => Some(Event::at(node, EventKind::PoorSolFound)),
        _ => None,
    }
}

/// What is told of a side that was judged at a node, whose column had these sides before.
fn side_event(
    core: &Core<'_>,
    node: u64,
    told: &Reduction,
    before: Option<Sides>,
) -> Option<Event> {
    if sides_at(core, told.col) == before {
        return None;
    }
    let kind = match told.side {
        Side::Low => EventKind::LbTightened,
        Side::High => EventKind::UbTightened,
    };
    Some(Event {
        kind,
        node,
        col: Some(told.col),
    })
}

/// Whether a proposal was accepted, this one or one before it.
fn is_any(before: bool, came: &Judged) -> bool
    ensures { result ≡ false → (before ≡ false) × (came.now ≢ WasAccepted) }
{
    match came {
        Judged::Accepted => true,
        _ => before,
    }
}

/// Whether a proposal was accepted, one of a plugin or one of those before it.
fn is_more(before: bool, came: Came) -> bool
    ensures { result ≡ false → (before ≡ false) × (came ≢ Accepted) }
{
    match came {
        Came::Accepted => true,
        _ => before,
    }
}

/// What came of proposals none of which showed that the node is empty.
fn came_of(any: bool) -> Came
    ensures open_ { result ≢ Emptied }
    ensures quiet { result ≡ Quiet → any ≡ false }
{
    if any { Came::Accepted } else { Came::Quiet }
}

impl<R: Asks> Plugins<R> {
    /// Judges a cut of the plugin of a number, as `judge_cut` does, and writes down what became of it. `Err` comes
    /// where memory was refused: what was accepted before it stands.
    pub fn take_cut(
        &mut self,
        core: &mut Core<'_>,
        node: &Node,
        id: u32,
        cut: &Cut,
    ) -> Result<Judged, AllocError>
        requires ready { IsReady core.old node.now self.old.scratches }
        requires sound { IsSound (R.state self.old.roster) (R.room self.old.roster) }
        requires seat { IsSome (slice_get (R.state self.old.roster).seats id) }
        ensures gone { HasGone core.old node.now (R.state self.old.roster) core.new node.now self.new.scratches
            (R.state self.new.roster) (R.room self.new.roster) }
        ensures judged { OnOk result (HasJudged id 1 self.old.judged.items self.new.judged.items) }
        ensures region { region_of core.new.tree node.now ≡ region_of core.old.tree node.now }
        ensures rows { IfOk result (λ came. came ≢ WasAccepted → core.new.pool ≡ core.old.pool) }
    {
        self.judged.reserve(1)?;
        let came = judge_cut(core, node, cut, &mut self.scratches)?;
        self.finish(id, &came, event_of(node.id(), &came, EventKind::RowAdded))?;
        Ok(came)
    }

    /// Judges a side of a plugin, as `take_cut` does.
    pub fn take_side(
        &mut self,
        core: &mut Core<'_>,
        node: &mut Node,
        id: u32,
        told: &Reduction,
    ) -> Result<Judged, AllocError>
        requires ready { IsReady core.old node.old self.old.scratches }
        requires sound { IsSound (R.state self.old.roster) (R.room self.old.roster) }
        requires seat { IsSome (slice_get (R.state self.old.roster).seats id) }
        ensures gone { HasGone core.old node.old (R.state self.old.roster) core.new node.new self.new.scratches
            (R.state self.new.roster) (R.room self.new.roster) }
        ensures judged { OnOk result (HasJudged id 1 self.old.judged.items self.new.judged.items) }
        ensures emptied { IfOk result (λ came. came ≡ ShownEmpty → IsShownEmpty core.new node.new) }
        ensures node { IfOk result (λ came. came ≢ WasAccepted → IsSameNode core.old core.new node.old node.new) }
        ensures pool { core.new.pool ≡ core.old.pool }
    {
        self.judged.reserve(1)?;
        let before = sides_at(core, told.col);
        let came = judge_reduction(core, node, told, &mut self.scratches.first)?;
        self.finish(id, &came, side_event(core, node.id(), told, before))?;
        Ok(came)
    }

    /// Judges a point of a plugin, as `take_cut` does, and keeps one that was accepted.
    pub(crate) fn take_point(
        &mut self,
        core: &mut Core<'_>,
        node: &Node,
        id: u32,
        guess: &Guess,
    ) -> Result<Judged, AllocError>
        requires ready { IsReady core.old node.now self.old.scratches }
        requires sound { IsSound (R.state self.old.roster) (R.room self.old.roster) }
        requires seat { IsSome (slice_get (R.state self.old.roster).seats id) }
        ensures gone { HasGone core.old node.now (R.state self.old.roster) core.new node.now self.new.scratches
            (R.state self.new.roster) (R.room self.new.roster) }
        ensures judged { OnOk result (HasJudged id 1 self.old.judged.items self.new.judged.items) }
        ensures region { region_of core.new.tree node.now ≡ region_of core.old.tree node.now }
        ensures pool { core.new.pool ≡ core.old.pool }
    {
        self.judged.reserve(1)?;
        let came = judge_guess(self.alloc, core, node, guess)?;
        self.finish(
            id,
            &came,
            event_of(node.id(), &came, EventKind::BestSolFound),
        )?;
        keep_guess(self.alloc, &mut self.guess, guess, &came)?;
        Ok(came)
    }

    /// Judges the cuts of a plugin, in their order; what came of them.
    fn take_cuts(
        &mut self,
        core: &mut Core<'_>,
        node: &Node,
        id: u32,
        cuts: &[Cut],
    ) -> Result<Came, AllocError>
        requires ready { IsReady core.old node.now self.old.scratches }
        requires sound { IsSound (R.state self.old.roster) (R.room self.old.roster) }
        requires seat { IsSome (slice_get (R.state self.old.roster).seats id) }
        ensures gone { HasGone core.old node.now (R.state self.old.roster) core.new node.now self.new.scratches
            (R.state self.new.roster) (R.room self.new.roster) }
        ensures judged { OnOk result (HasJudged id (length cuts.now) self.old.judged.items self.new.judged.items) }
        ensures region { region_of core.new.tree node.now ≡ region_of core.old.tree node.now }
        ensures open_ { IfOk result (λ came. came ≢ Emptied) }
        ensures rows { IfOk result (λ came. came ≡ Quiet → core.new.pool ≡ core.old.pool) }
    {
        let mut any = false;
        for cut in cuts {
            let came = self.take_cut(core, node, id, cut)?;
            any = is_any(any, &came);
        }
        Ok(came_of(any))
    }

    /// Judges the points of a plugin, in their order; what came of them.
    fn take_points(
        &mut self,
        core: &mut Core<'_>,
        node: &Node,
        id: u32,
        points: &[Guess],
    ) -> Result<Came, AllocError>
        requires ready { IsReady core.old node.now self.old.scratches }
        requires sound { IsSound (R.state self.old.roster) (R.room self.old.roster) }
        requires seat { IsSome (slice_get (R.state self.old.roster).seats id) }
        ensures gone { HasGone core.old node.now (R.state self.old.roster) core.new node.now self.new.scratches
            (R.state self.new.roster) (R.room self.new.roster) }
        ensures judged { OnOk result (HasJudged id (length points.now) self.old.judged.items self.new.judged.items) }
        ensures region { region_of core.new.tree node.now ≡ region_of core.old.tree node.now }
        ensures open_ { IfOk result (λ came. came ≢ Emptied) }
        ensures pool { core.new.pool ≡ core.old.pool }
    {
        let mut any = false;
        for guess in points {
            let came = self.take_point(core, node, id, guess)?;
            any = is_any(any, &came);
        }
        Ok(came_of(any))
    }

    /// Judges the sides of a plugin, in their order, until one shows that the node is empty.
    fn take_sides(
        &mut self,
        core: &mut Core<'_>,
        node: &mut Node,
        id: u32,
        sides: &[Reduction],
    ) -> Result<Came, AllocError>
        requires ready { IsReady core.old node.old self.old.scratches }
        requires sound { IsSound (R.state self.old.roster) (R.room self.old.roster) }
        requires seat { IsSome (slice_get (R.state self.old.roster).seats id) }
        ensures gone { HasGone core.old node.old (R.state self.old.roster) core.new node.new self.new.scratches
            (R.state self.new.roster) (R.room self.new.roster) }
        ensures judged { IfOk result (λ came. came ≢ Emptied
            → HasJudged id (length sides.now) self.old.judged.items self.new.judged.items) }
        ensures emptied { IfOk result (λ came. came ≡ Emptied → IsShownEmpty core.new node.new) }
        ensures pool { core.new.pool ≡ core.old.pool }
    {
        let mut any = false;
        for told in sides {
            match self.take_side(core, node, id, told)? {
                Judged::Emptied => return Ok(Came::Emptied),
                came => any = is_any(any, &came),
            }
        }
        Ok(came_of(any))
    }

    /// Judges what a plugin gave in a round, in its order, until one proposal shows that the node is empty.
    fn take_given(
        &mut self,
        core: &mut Core<'_>,
        node: &mut Node,
        round: Round,
        id: u32,
        given: &Given,
    ) -> Result<Came, AllocError>
        requires ready { IsReady core.old node.old self.old.scratches }
        requires sound { IsSound (R.state self.old.roster) (R.room self.old.roster) }
        requires seat { IsSome (slice_get (R.state self.old.roster).seats id) }
        ensures gone { HasGone core.old node.old (R.state self.old.roster) core.new node.new self.new.scratches
            (R.state self.new.roster) (R.room self.new.roster) }
        ensures judged { IfOk result (λ came. came ≢ Emptied
            → HasJudged id (count_for (ask_in round) (answer_of given.now)) self.old.judged.items
            self.new.judged.items) }
        ensures emptied { IfOk result (λ came. came ≡ Emptied → IsShownEmpty core.new node.new) }
        ensures node { round ≢ OfSides → IsSameNode core.old core.new node.old node.new }
        ensures rows { IfOk result (λ came. came ≡ Quiet → core.new.pool ≡ core.old.pool) }
        ensures pool { round ≢ OfCuts → core.new.pool ≡ core.old.pool }
        ensures sides { IfOk result (λ came. came ≡ Emptied → round ≡ OfSides) }
    {
        match round {
            Round::Sides => self.take_sides(core, node, id, sides_of(given)),
            Round::Cuts => self.take_cuts(core, node, id, cuts_of(given)),
            Round::Points => self.take_points(core, node, id, points_of(given)),
        }
    }

    /// Judges what plugins gave in a round, in their order, until one proposal shows that the node is empty.
    pub(crate) fn take_all(
        &mut self,
        core: &mut Core<'_>,
        node: &mut Node,
        round: Round,
        gave: &[(u32, Given)],
    ) -> Result<Came, AllocError>
        requires ready { IsReady core.old node.old self.old.scratches }
        requires sound { IsSound (R.state self.old.roster) (R.room self.old.roster) }
        requires seated { AreSeated (R.state self.old.roster) gave.now }
        ensures gone { HasGone core.old node.old (R.state self.old.roster) core.new node.new self.new.scratches
            (R.state self.new.roster) (R.room self.new.roster) }
        ensures judged { IfOk result (λ came. came ≢ Emptied → makers self.new.judged.items
            ≡ makers self.old.judged.items ++ proposers (ask_in round) (told_of gave.now)) }
        ensures emptied { IfOk result (λ came. came ≡ Emptied → IsShownEmpty core.new node.new) }
        ensures node { round ≢ OfSides → IsSameNode core.old core.new node.old node.new }
        ensures rows { IfOk result (λ came. came ≡ Quiet → core.new.pool ≡ core.old.pool) }
        ensures pool { round ≢ OfCuts → core.new.pool ≡ core.old.pool }
        ensures sides { IfOk result (λ came. came ≡ Emptied → round ≡ OfSides) }
    {
        let mut any = false;
        for (id, given) in gave {
            match self.take_given(core, node, round, *id, given)? {
                Came::Emptied => return Ok(Came::Emptied),
                came => any = is_more(any, came),
            }
        }
        Ok(came_of(any))
    }
}
