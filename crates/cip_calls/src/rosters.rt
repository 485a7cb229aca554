//! The roster is asked and told.
ghost use Rattle.std.specs.Prelude.{◌≡◌, ◌∷◌, [], IfOk, OnOk, OnErr, IsSome, slice_get};
ghost use Rattle.cip_events.specs.declared.words.Word.TheVariants as say;
ghost use Rattle.cip_plugin.specs.Steps.{Runs, Notes};
ghost use Rattle.cip_roster.specs.Turns.{IsSound};
ghost use Rattle.cip_roster.specs.Wished.{Ran};
ghost use Rattle.cip_calls.specs.Asked.{ask_in, ask_at, told as told_of, HasAsked, AreSeated, IsSeatedNext, HasTold};
ghost use Rattle.cip_calls.specs.Waiting.{HasAskedNext};

use crate::asks::{Asks, Round, Turn};
use cip_events::EventQueue;
use cip_plugin::{Given, View};
use cip_roster::{Roster, Seated};
use std::alloc::{AllocError, Global};

// The clauses are those of the trait. They stand here once more since a function with a condition that takes a kit may
// call only methods of a roster that show theirs.
impl Asks for Roster {
    fn has_none(&self) -> bool {
        false
    }

    fn ask_all(
        &mut self,
        alloc: Global,
        round: Round,
        view: &View<'_>,
    ) -> Result<Vec<(u32, Given)>, AllocError>
        requires sound { IsSound (⟦<Roster as Seated>⟧.state self.old) (⟦<Roster as Seated>⟧.room self.old) }
        ensures sound { IsSound (⟦<Roster as Seated>⟧.state self.new) (⟦<Roster as Seated>⟧.room self.new) }
        ensures asked { IfOk result (λ gave. HasAsked (ask_in round) (⟦<Roster as Seated>⟧.state self.old)
            (⟦<Roster as Seated>⟧.state self.new) (told_of gave.items)) }
        ensures seated { IfOk result (λ gave. AreSeated (⟦<Roster as Seated>⟧.state self.new) gave.items) }
        ensures run { Ran (⟦<Roster as Seated>⟧.state self.old) (⟦<Roster as Seated>⟧.state self.new) }
    {
        match round {
            Round::Cuts => self.call_separators(alloc, view),
            Round::Sides => self.call_propagators(alloc, view),
            Round::Points => self.call_heuristics(alloc, view),
        }
    }

    fn ask_next(
        &mut self,
        alloc: Global,
        turn: Turn,
        after: Option<u32>,
        view: &View<'_>,
    ) -> Result<Option<(u32, Option<Given>)>, AllocError>
        requires sound { IsSound (⟦<Roster as Seated>⟧.state self.old) (⟦<Roster as Seated>⟧.room self.old) }
        ensures sound { IsSound (⟦<Roster as Seated>⟧.state self.new) (⟦<Roster as Seated>⟧.room self.new) }
        ensures asked { IfOk result (HasAskedNext (ask_at turn) (⟦<Roster as Seated>⟧.state self.old)
            (⟦<Roster as Seated>⟧.state self.new) after) }
        ensures seated { IfOk result (IsSeatedNext (⟦<Roster as Seated>⟧.state self.new)) }
        ensures err { OnErr result (⟦<Roster as Seated>⟧.state self.new ≡ ⟦<Roster as Seated>⟧.state self.old) }
    {
        match turn {
            Turn::Split => self.call_rules(alloc, view, after),
            Turn::Verdict => self.call_enforcers(alloc, view, after),
        }
    }

    fn note_refused(&mut self, id: u32, fault: &'static str) -> Result<(), AllocError>
        requires sound { IsSound (⟦<Roster as Seated>⟧.state self.old) (⟦<Roster as Seated>⟧.room self.old) }
        requires seat { IsSome (slice_get (⟦<Roster as Seated>⟧.state self.old).seats id) }
        ensures sound { IsSound (⟦<Roster as Seated>⟧.state self.new) (⟦<Roster as Seated>⟧.room self.new) }
        ensures noted { OnOk result (Runs (⟦<Roster as Seated>⟧.state self.old)
            (Notes id (say.Refused fault.entry) ∷ []) (⟦<Roster as Seated>⟧.state self.new)) }
        ensures same { OnErr result (⟦<Roster as Seated>⟧.state self.new ≡ ⟦<Roster as Seated>⟧.state self.old) }
    {
        self.refused(id, fault)
    }

    fn tell(
        &mut self,
        alloc: Global,
        queue: &mut EventQueue,
        view: &View<'_>,
    ) -> Result<(), AllocError>
        requires sound { IsSound (⟦<Roster as Seated>⟧.state self.old) (⟦<Roster as Seated>⟧.room self.old) }
        ensures sound { IsSound (⟦<Roster as Seated>⟧.state self.new) (⟦<Roster as Seated>⟧.room self.new) }
        ensures empty { OnOk result (queue.new ≡ []) }
        ensures told { OnOk result (HasTold queue.old (⟦<Roster as Seated>⟧.state self.old)
            (⟦<Roster as Seated>⟧.state self.new)) }
        ensures run { Ran (⟦<Roster as Seated>⟧.state self.old) (⟦<Roster as Seated>⟧.state self.new) }
    {
        self.deliver(alloc, queue, view)
    }
}
