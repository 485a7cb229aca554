//! The plugins of a search, beside its core.
ghost use Rattle.std.specs.Prelude.{◌≡◌, ◌<◌, ◌++◌, ◌∷◌, [], false, Some, OnOk, IsSome, slice_get, vec_len, vec_capacity};
ghost use Rattle.cip_roster.specs.Turns.{IsSound};
ghost use Rattle.cip_calls.specs.CoreStates.{reduced_of, held_of};
ghost use Rattle.cip_calls.specs.CutoffRow.{cutoff_of};
ghost use Rattle.cip_calls.specs.Noted.{HasNoted, HasJudged};

use crate::asks::Asks;
use crate::{Core, Judged, Scratches};
use cip_events::{Event, EventKind, EventQueue};
use cip_frac::Frac;
use cip_lin::Combo;
use cip_plugin::{Guess, View};
use std::alloc::{AllocError, Global};
use std::mem;

/// The plugins of a search, with the events that wait to be told them, what checks of their proposals work in, what
/// became of the proposals of the node in work, each with the number of who made it, and the last guess that was
/// accepted.
#[derive(Drop)]
pub struct Plugins<R> {
    /// The plugins.
    pub roster: R,
    /// The events that wait.
    pub queue: EventQueue,
    /// What checks work in.
    pub scratches: Scratches,
    /// What became of proposals.
    pub judged: Vec<(u32, Judged)>,
    /// The last guess that was accepted, a point of the reduced program.
    pub guess: Option<Vec<Frac>>,
    /// The memory in which guesses come back, and in which the last one is kept.
    pub alloc: Global,
}

/// What the last linear program of a node came to, as plugins see it: its point, if it has one and that was found, and
/// the combination that shows its least cost, or that it has no point.
#[derive(Clone, Copy, Drop)]
pub struct Last<'p> {
    /// The point.
    pub point: Option<&'p [Frac]>,
    /// The combination.
    pub combo: Option<&'p Combo>,
}

impl<'p> Last<'p> {
    /// No linear program was solved yet.
    pub fn none() -> Last<'p> {
        Last {
            point: None,
            combo: None,
        }
    }
}

/// What plugins see of a core while the node of this number is in work, or after it was, with what its last linear
/// program came to and the last guess that was accepted: all is of the reduced program, and no more of the program as
/// read than the cost held.
pub fn view_of<'v>(
    core: &'v Core<'_>,
    node: u64,
    last: Last<'v>,
    guess: &'v Option<Vec<Frac>>,
) -> View<'v>
    ensures node { result.node ≡ node }
    ensures bounds { result.bounds.now ≡ core.now.tree.work.box }
    ensures root { result.root.now ≡ (reduced_of core.now).bounds }
    ensures own { result.own.now ≡ (reduced_of core.now).rows }
    ensures pool { result.pool.now ≡ core.now.pool.rows }
    ensures cutoff { result.cutoff.now ≡ Some (cutoff_of (reduced_of core.now) (held_of core.now)) }
    ensures whole { result.whole.now ≡ (reduced_of core.now).integral }
    ensures costs { result.costs.now ≡ (reduced_of core.now).costs }
    ensures held { result.held ≡ held_of core.now }
{
    let rows = core.rows();
    let program = core.reduced();
    View {
        node,
        bounds: core.bounds(),
        root: program.bounds(),
        own: rows.own,
        pool: rows.pool,
        cutoff: rows.cutoff,
        whole: program.whole(),
        costs: program.costs(),
        point: last.point,
        combo: last.combo,
        held: core.held_cost(),
        guess: match guess {
            None => None,
            Some(values) => Some(values.as_slice()),
        },
        blocks: None,
    }
}

/// Keeps a guess that was accepted. `Err` comes where memory was refused.
pub(crate) fn keep_guess(
    alloc: Global,
    kept: &mut Option<Vec<Frac>>,
    guess: &Guess,
    came: &Judged,
) -> Result<(), AllocError> {
    if let Judged::Accepted = came {
        *kept = Some(Vec::from_slice(alloc, guess.values.as_slice())?);
    }
    Ok(())
}

/// Puts an event behind those that wait, unless nobody is to be told. `Err` comes where memory was refused.
pub(crate) fn put(queue: &mut EventQueue, is_silent: bool, event: Event) -> Result<(), AllocError>
    ensures { OnOk result (is_silent ≡ false → queue.new ≡ queue.old ++ event ∷ []) }
{
    if is_silent {
        return Ok(());
    }
    queue.push(event)
}

/// So it does with an event, if there is one.
fn put_if(queue: &mut EventQueue, is_silent: bool, event: Option<Event>) -> Result<(), AllocError> {
    match event {
        None => Ok(()),
        Some(event) => put(queue, is_silent, event),
    }
}

impl<R: Asks> Plugins<R> {
    /// The plugins of a search, with what checks work in; no event waits, and nothing was judged.
    pub fn new(alloc: Global, scratches: Scratches, roster: R) -> Plugins<R>
        ensures roster { result.roster ≡ roster }
        ensures scratches { result.scratches ≡ scratches }
        ensures judged { result.judged.items ≡ [] }
    {
        Plugins {
            roster,
            queue: EventQueue::new(alloc),
            scratches,
            judged: Vec::new(alloc),
            guess: None,
            alloc,
        }
    }

    /// Puts an event of a node behind those that wait, unless nobody is to be told. `Err` comes where memory was
    /// refused.
    pub fn queue_event(&mut self, node: u64, kind: EventKind) -> Result<(), AllocError>
        ensures frame { (self.new.roster ≡ self.old.roster) × (self.new.scratches ≡ self.old.scratches)
            × (self.new.judged ≡ self.old.judged) }
    {
        put(
            &mut self.queue,
            self.roster.has_none(),
            Event::at(node, kind),
        )
    }

    /// What became of proposals since this was asked last; nothing is left of it.
    pub fn take_judged(&mut self, alloc: Global) -> Vec<(u32, Judged)>
        ensures judged { result.items ≡ self.old.judged.items }
        ensures none { self.new.judged.items ≡ [] }
        ensures frame { (self.new.roster ≡ self.old.roster) × (self.new.scratches ≡ self.old.scratches) }
    {
        mem::replace(&mut self.judged, Vec::new(alloc))
    }

    /// Writes down what became of a proposal of the plugin of a number, puts the event that it raised, if there is one,
    /// behind those that wait, and writes the fault of one that was refused. There is room for one more in `judged`.
    /// `Err` comes where memory was refused: what became of it is written down then, too.
    pub fn finish(&mut self, id: u32, came: &Judged, event: Option<Event>) -> Result<(), AllocError>
        requires sound { IsSound (R.state self.old.roster) (R.room self.old.roster) }
        requires seat { IsSome (slice_get (R.state self.old.roster).seats id) }
        requires room { vec_len self.old.judged < vec_capacity self.old.judged }
        ensures sound { IsSound (R.state self.new.roster) (R.room self.new.roster) }
        ensures noted { HasNoted (R.state self.old.roster) (R.state self.new.roster) }
        ensures judged { HasJudged id 1 self.old.judged.items self.new.judged.items }
        ensures scratches { self.new.scratches ≡ self.old.scratches }
    {
        self.judged.push_reserved((id, *came));
        put_if(&mut self.queue, self.roster.has_none(), event)?;
        match came {
            Judged::Refused(fault) => self.roster.note_refused(id, fault.name()),
            _ => Ok(()),
        }
    }
}
