//! Who is asked and told while nodes are worked on.
ghost use Rattle.std.specs.Prelude.{◌≡◌, ◌∷◌, [], true, IfOk, OnOk, OnErr, IsSome, slice_get};
ghost use Rattle.cip_events.specs.declared.words.Word.TheVariants as say;
ghost use Rattle.cip_plugin.specs.Steps.{Runs, Notes};
ghost use Rattle.cip_roster.specs.Turns.{IsSound};
ghost use Rattle.cip_roster.specs.Wished.{Ran};
ghost use Rattle.cip_calls.specs.Asked.{ask_in, ask_at, told as told_of, HasAsked, AreSeated, IsSeatedNext, HasTold};
ghost use Rattle.cip_calls.specs.Waiting.{HasAskedNext};

use cip_events::EventQueue;
use cip_plugin::{Given, View};
use cip_roster::Seated;
use std::alloc::{AllocError, Global};

/// What all plugins of a kind are asked for, one after the other, and where it is so the handlers behind them.
#[derive(Clone, Copy)]
pub enum Round {
    /// Cuts, of separators and handlers.
    Cuts,
    /// Sides, of propagators and handlers.
    Sides,
    /// Points, of heuristics.
    Points,
}

/// What plugins are asked for until one gives it.
#[derive(Clone, Copy)]
pub enum Turn {
    /// A split, of branching rules.
    Split,
    /// What to do about a point, of handlers.
    Verdict,
}

/// Plugins with seats, that are asked and told.
pub trait Asks: Seated {
    /// Whether no plugin has a seat, so that nobody is to be asked or told; `false` says nothing.
    fn has_none(&self) -> bool
        ensures { result ≡ true → (Self.state self.now).seats ≡ [] };

    /// Asks all plugins for this, one after the other; what each that answered gives, its first 64 proposals, by its
    /// number. `Err` comes where a growth was refused: what was called before it stands.
    fn ask_all(
        &mut self,
        alloc: Global,
        round: Round,
        view: &View<'_>,
    ) -> Result<Vec<(u32, Given)>, AllocError>
        requires sound { IsSound (Self.state self.old) (Self.room self.old) }
        ensures sound { IsSound (Self.state self.new) (Self.room self.new) }
        ensures asked { IfOk result (λ gave. HasAsked (ask_in round) (Self.state self.old) (Self.state self.new)
            (told_of gave.items)) }
        ensures seated { IfOk result (λ gave. AreSeated (Self.state self.new) gave.items) }
        ensures run { Ran (Self.state self.old) (Self.state self.new) };

    /// Asks the next plugin behind the one of a number, or the first, for this, by falling priority and rising
    /// number. `None`: there is none behind it; an inner `None`: that one wanted memory. `Err` comes where a growth
    /// was refused, and then nobody was called.
    fn ask_next(
        &mut self,
        alloc: Global,
        turn: Turn,
        after: Option<u32>,
        view: &View<'_>,
    ) -> Result<Option<(u32, Option<Given>)>, AllocError>
        requires sound { IsSound (Self.state self.old) (Self.room self.old) }
        ensures sound { IsSound (Self.state self.new) (Self.room self.new) }
        ensures asked { IfOk result (HasAskedNext (ask_at turn) (Self.state self.old) (Self.state self.new) after) }
        ensures seated { IfOk result (IsSeatedNext (Self.state self.new)) }
        ensures err { OnErr result (Self.state self.new ≡ Self.state self.old) };

    /// Writes that a proposal of a plugin was refused, for the fault of this name. `Err` comes where a growth was
    /// refused, and leaves all as it was.
    fn note_refused(&mut self, id: u32, fault: &'static str) -> Result<(), AllocError>
        requires sound { IsSound (Self.state self.old) (Self.room self.old) }
        requires seat { IsSome (slice_get (Self.state self.old).seats id) }
        ensures sound { IsSound (Self.state self.new) (Self.room self.new) }
        ensures noted { OnOk result (Runs (Self.state self.old) (Notes id (say.Refused fault.entry) ∷ [])
            (Self.state self.new)) }
        ensures same { OnErr result (Self.state self.new ≡ Self.state self.old) };

    /// Tells all events that wait, and those that are raised meanwhile. `Err` comes where a growth was refused: what
    /// was called before it stands.
    fn tell(
        &mut self,
        alloc: Global,
        queue: &mut EventQueue,
        view: &View<'_>,
    ) -> Result<(), AllocError>
        requires sound { IsSound (Self.state self.old) (Self.room self.old) }
        ensures sound { IsSound (Self.state self.new) (Self.room self.new) }
        ensures empty { OnOk result (queue.new ≡ []) }
        ensures told { OnOk result (HasTold queue.old (Self.state self.old) (Self.state self.new)) }
        ensures run { Ran (Self.state self.old) (Self.state self.new) };
}
