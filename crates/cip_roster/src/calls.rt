//! What a roster does for a search. Each call is put together from single steps.
ghost use Rattle.std.specs.Prelude.{◌≡◌, ◌++◌, [], ◌∷◌, IfOk, OnOk, OnErr, MatchResult, IsSome, is_ok, slice_get, if◌then◌else◌};
ghost use Rattle.cip_events.specs.declared.words.Word.TheVariants as say;
ghost use Rattle.cip_plugin.specs.declared.kinds.Kind.TheVariants as kinds;
ghost use Rattle.cip_plugin.specs.Calls.{Separate, Propagate, Price, Search, Branch, Enforce};
ghost use Rattle.cip_plugin.specs.Steps.{Runs, Notes};
ghost use Rattle.cip_plugin.specs.Delivering.{Delivered};
ghost use Rattle.cip_plugin.specs.Wishing.{raised_by};
ghost use Rattle.cip_roster.specs.Nexts.{CalledNext};
ghost use Rattle.cip_roster.specs.Turns.{IsSound, CalledKind, CalledBoth};
ghost use Rattle.cip_roster.specs.Wished.{Ran, WasGranted, WasRefused};

use crate::calling::{call_both, call_one};
use crate::delivering::deliver as deliver_all;
use crate::nexts::call_next;
use crate::rosters::{Roster, Seated};
use crate::wishing::{refused as note_refused, wish as try_wish};
use cip_events::EventQueue;
use cip_frac::Frac;
use cip_plugin::{Given, Kind, Question, View, Wish, WishFault};
use std::alloc::{AllocError, Global};

impl Roster {
    /// Cuts: of the separators, then of the handlers, each by its number. A plugin that wanted memory has no entry.
    /// `Err` comes where a growth was refused: what was called before it stands.
    pub fn call_separators(
        &mut self,
        alloc: Global,
        view: &View<'_>,
    ) -> Result<Vec<(u32, Given)>, AllocError>
        requires sound { IsSound (⟦<Roster as Seated>⟧.state self.old) (⟦<Roster as Seated>⟧.room self.old) }
        ensures sound { IsSound (⟦<Roster as Seated>⟧.state self.new) (⟦<Roster as Seated>⟧.room self.new) }
        ensures called { IfOk result (λ given. CalledBoth kinds.Separator Separate
            (⟦<Roster as Seated>⟧.state self.old) (⟦<Roster as Seated>⟧.state self.new) given.items) }
        ensures err { OnErr result (Ran (⟦<Roster as Seated>⟧.state self.old) (⟦<Roster as Seated>⟧.state self.new)) }
    {
        call_both(self, alloc, Kind::Separator, Question::Separate, view)
    }

    /// Reductions: of the propagators, then of the handlers, as with `call_separators`.
    pub fn call_propagators(
        &mut self,
        alloc: Global,
        view: &View<'_>,
    ) -> Result<Vec<(u32, Given)>, AllocError>
        requires sound { IsSound (⟦<Roster as Seated>⟧.state self.old) (⟦<Roster as Seated>⟧.room self.old) }
        ensures sound { IsSound (⟦<Roster as Seated>⟧.state self.new) (⟦<Roster as Seated>⟧.room self.new) }
        ensures called { IfOk result (λ given. CalledBoth kinds.Propagator Propagate
            (⟦<Roster as Seated>⟧.state self.old) (⟦<Roster as Seated>⟧.state self.new) given.items) }
        ensures err { OnErr result (Ran (⟦<Roster as Seated>⟧.state self.old) (⟦<Roster as Seated>⟧.state self.new)) }
    {
        call_both(self, alloc, Kind::Propagator, Question::Propagate, view)
    }

    /// Points of a block and bounds, of the pricers, at these costs of the block's columns. `Err` comes where a growth
    /// was refused, and then nobody was called.
    pub fn call_pricers(
        &mut self,
        alloc: Global,
        view: &View<'_>,
        block: u32,
        costs: &[Frac],
    ) -> Result<Vec<(u32, Given)>, AllocError>
        requires sound { IsSound (⟦<Roster as Seated>⟧.state self.old) (⟦<Roster as Seated>⟧.room self.old) }
        ensures sound { IsSound (⟦<Roster as Seated>⟧.state self.new) (⟦<Roster as Seated>⟧.room self.new) }
        ensures called { IfOk result (λ given. CalledKind kinds.Pricer (Price block costs.now)
            (⟦<Roster as Seated>⟧.state self.old) (⟦<Roster as Seated>⟧.state self.new) [] given.items) }
        ensures err { OnErr result (⟦<Roster as Seated>⟧.state self.new ≡ ⟦<Roster as Seated>⟧.state self.old) }
    {
        call_one(
            self,
            alloc,
            Kind::Pricer,
            Question::Price { block, costs },
            view,
        )
    }

    /// Points of the program, of the heuristics. `Err` comes where a growth was refused, and then nobody was called.
    pub fn call_heuristics(
        &mut self,
        alloc: Global,
        view: &View<'_>,
    ) -> Result<Vec<(u32, Given)>, AllocError>
        requires sound { IsSound (⟦<Roster as Seated>⟧.state self.old) (⟦<Roster as Seated>⟧.room self.old) }
        ensures sound { IsSound (⟦<Roster as Seated>⟧.state self.new) (⟦<Roster as Seated>⟧.room self.new) }
        ensures called { IfOk result (λ given. CalledKind kinds.Heuristic Search
            (⟦<Roster as Seated>⟧.state self.old) (⟦<Roster as Seated>⟧.state self.new) [] given.items) }
        ensures err { OnErr result (⟦<Roster as Seated>⟧.state self.new ≡ ⟦<Roster as Seated>⟧.state self.old) }
    {
        call_one(self, alloc, Kind::Heuristic, Question::Search, view)
    }

    /// A split, of the next branching rule behind the one of a number, or of the first. `None`: there is none behind
    /// it; an inner `None`: that one wanted memory. `Err` comes where a growth was refused, and then nobody was called.
    pub fn call_rules(
        &mut self,
        alloc: Global,
        view: &View<'_>,
        after: Option<u32>,
    ) -> Result<Option<(u32, Option<Given>)>, AllocError>
        requires sound { IsSound (⟦<Roster as Seated>⟧.state self.old) (⟦<Roster as Seated>⟧.room self.old) }
        ensures sound { IsSound (⟦<Roster as Seated>⟧.state self.new) (⟦<Roster as Seated>⟧.room self.new) }
        ensures called { IfOk result (λ gave. CalledNext kinds.BranchRule Branch after
            (⟦<Roster as Seated>⟧.state self.old) (⟦<Roster as Seated>⟧.state self.new) gave) }
        ensures err { OnErr result (⟦<Roster as Seated>⟧.state self.new ≡ ⟦<Roster as Seated>⟧.state self.old) }
    {
        call_next(self, alloc, Kind::BranchRule, Question::Branch, after, view)
    }

    /// What to do about a point, of the next handler behind the one of a number, or of the first, as with `call_rules`.
    pub fn call_enforcers(
        &mut self,
        alloc: Global,
        view: &View<'_>,
        after: Option<u32>,
    ) -> Result<Option<(u32, Option<Given>)>, AllocError>
        requires sound { IsSound (⟦<Roster as Seated>⟧.state self.old) (⟦<Roster as Seated>⟧.room self.old) }
        ensures sound { IsSound (⟦<Roster as Seated>⟧.state self.new) (⟦<Roster as Seated>⟧.room self.new) }
        ensures called { IfOk result (λ gave. CalledNext kinds.ConsHandler Enforce after
            (⟦<Roster as Seated>⟧.state self.old) (⟦<Roster as Seated>⟧.state self.new) gave) }
        ensures err { OnErr result (⟦<Roster as Seated>⟧.state self.new ≡ ⟦<Roster as Seated>⟧.state self.old) }
    {
        call_next(
            self,
            alloc,
            Kind::ConsHandler,
            Question::Enforce,
            after,
            view,
        )
    }

    /// Grants a wish, or says why not: then nothing has changed. An event is raised at an inclusion and at a free.
    pub fn wish(
        &mut self,
        alloc: Global,
        wish: Wish,
        queue: &mut EventQueue,
        view: &View<'_>,
    ) -> Result<(), WishFault>
        requires sound { IsSound (⟦<Roster as Seated>⟧.state self.old) (⟦<Roster as Seated>⟧.room self.old) }
        ensures sound { IsSound (⟦<Roster as Seated>⟧.state self.new) (⟦<Roster as Seated>⟧.room self.new) }
        ensures came { MatchResult result
            (λ _. WasGranted wish (⟦<Roster as Seated>⟧.state self.old) (⟦<Roster as Seated>⟧.state self.new))
            (λ fault. WasRefused wish fault (⟦<Roster as Seated>⟧.state self.old)
            (⟦<Roster as Seated>⟧.state self.new)) }
        ensures queue { queue.new ≡ queue.old ++ (if is_ok result then raised_by view.now.node wish else []) }
    {
        try_wish(self, alloc, wish, queue, view)
    }

    /// Writes that a proposal of a plugin was refused, for the fault of this name. `Err` comes where a growth was
    /// refused, and leaves the roster as it was.
    pub fn refused(&mut self, id: u32, fault: &'static str) -> Result<(), AllocError>
        requires sound { IsSound (⟦<Roster as Seated>⟧.state self.old) (⟦<Roster as Seated>⟧.room self.old) }
        requires seat { IsSome (slice_get (⟦<Roster as Seated>⟧.state self.old).seats id) }
        ensures sound { IsSound (⟦<Roster as Seated>⟧.state self.new) (⟦<Roster as Seated>⟧.room self.new) }
        ensures noted { OnOk result (Runs (⟦<Roster as Seated>⟧.state self.old)
            (Notes id (say.Refused fault.entry) ∷ []) (⟦<Roster as Seated>⟧.state self.new)) }
        ensures same { OnErr result (⟦<Roster as Seated>⟧.state self.new ≡ ⟦<Roster as Seated>⟧.state self.old) }
    {
        note_refused(self, id, fault)
    }

    /// Tells all events that wait, and those that inclusions and frees raise meanwhile. `Err` comes where a growth was
    /// refused: what was called and granted before it stands.
    pub fn deliver(
        &mut self,
        alloc: Global,
        queue: &mut EventQueue,
        view: &View<'_>,
    ) -> Result<(), AllocError>
        requires sound { IsSound (⟦<Roster as Seated>⟧.state self.old) (⟦<Roster as Seated>⟧.room self.old) }
        ensures sound { IsSound (⟦<Roster as Seated>⟧.state self.new) (⟦<Roster as Seated>⟧.room self.new) }
        ensures empty { OnOk result (queue.new ≡ []) }
        ensures told { OnOk result (Delivered view.now.node queue.old (⟦<Roster as Seated>⟧.state self.old)
            (⟦<Roster as Seated>⟧.state self.new)) }
        ensures err { OnErr result (Ran (⟦<Roster as Seated>⟧.state self.old) (⟦<Roster as Seated>⟧.state self.new)) }
    {
        deliver_all(self, alloc, queue, view)
    }
}
