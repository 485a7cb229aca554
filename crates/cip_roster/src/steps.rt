//! Single steps of a roster, each by what it does to the state, and what is read of it. All that a roster does is put
//! together from these, in functions that know nothing else of it.
ghost use Rattle.std.specs.Prelude.{◌≡◌, ℕ, ◌+◌, ◌*◌, ◌++◌, ◌≤◌, [], ◌∷◌, None, Some, OnOk, MatchResult, true, false, length, slice_get, if◌then◌else◌};
ghost use Rattle.cip_plugin.specs.Answers.{answer};
ghost use Rattle.cip_plugin.specs.Asking.{ask_of, answer_of};
ghost use Rattle.cip_plugin.specs.Calls.{Init, InitSolve, Asked, ExitSolve, Exit};
ghost use Rattle.cip_events.specs.Names.{shown_name};
ghost use Rattle.cip_plugin.specs.Seats.{Seat, live_count};
ghost use Rattle.cip_plugin.specs.Steps.{IsSeated, Runs, Calls, Turns, Ranks, Takes, line};
ghost use Rattle.cip_plugin.specs.Delivering.{hears_there};
ghost use Rattle.cip_plugin.specs.Wishing.{is_enabled, place_fault, seat_fault};
ghost use Rattle.cip_plugin.specs.declared.stages.Stage.TheVariants as stages;
ghost use Rattle.cip_roster.specs.KeptRankings.{no_rankings, ranking_of, with_ranking, without_ranking};
ghost use Rattle.cip_roster.specs.Nexts.{key_at};
ghost use Rattle.cip_roster.specs.Turns.{CanBeAsked, IsLiveAt, StandsAt, ready_key};

use crate::rosters::Seated;
use cip_events::{Event, Word};
use cip_plugin::{Given, Key, Kind, Question, Tells, View, WishFault};
use std::alloc::{AllocError, Global};

/// What a roster is asked for and does, one step at a time. Each step has its room.
pub(crate) trait Steps: Seated {
    ghost has_seat: { Self → Type 0 };

    /// How many plugins were included.
    fn count(&self) -> usize
        ensures { result ≡ length (Self.state self.now).seats };

    /// Whether a plugin is live; else why not.
    fn live(&self, id: u32) -> Result<(), WishFault>
        ensures { MatchResult result (λ _. IsLiveAt (Self.state self.now) id)
            (λ fault. seat_fault (slice_get (Self.state self.now).seats id) ≡ Some fault) };

    /// Whether a plugin is a live and enabled event handler that wants events like this one.
    fn is_to_hear(&self, id: u32, event: &Event) -> bool
        ensures { result ≡ hears_there event.now (slice_get (Self.state self.now).seats id) };

    /// Whether a plugin is enabled; one that isn't there isn't.
    fn is_enabled(&self, id: u32) -> bool
        ensures { result ≡ is_enabled (slice_get (Self.state self.now).seats id) };

    /// The key of a plugin, as its priority is now, if one is named.
    fn key(&self, named: Option<u32>) -> Option<Key>
        ensures { result ≡ key_at (Self.state self.now).seats named };

    /// That of one that is live, enabled, and of a kind.
    fn ready_key(&self, id: u32, kind: Kind) -> Option<Key>
        ensures { result ≡ ready_key kind id (slice_get (Self.state self.now).seats id) };

    /// Whether a place of the shelf holds a plugin; else why not.
    fn holds(&self, place: u32) -> Result<(), WishFault>
        ensures { MatchResult result (λ _. place_fault (slice_get (Self.state self.now).places place) ≡ None)
            (λ fault. place_fault (slice_get (Self.state self.now).places place) ≡ Some fault) };

    /// Makes room for the lines of so many turns, beside those that are kept for the end. `Err` comes where a growth
    /// was refused. Neither changes the state.
    fn reserve_turns(&mut self, turns: usize) -> Result<(), AllocError>
        ensures state { Self.state self.new ≡ Self.state self.old }
        ensures room { OnOk result (2 * turns + 2 * live_count (Self.state self.old).seats
            ≤ (Self.room self.new).lines) }
        ensures grows { (Self.room self.old).lines ≤ (Self.room self.new).lines }
        ensures rankings { (Self.room self.new).rankings ≡ (Self.room self.old).rankings };

    /// Makes room for one more plugin: its seat, its name and its lines. `Err` comes where a growth was refused.
    /// Neither changes the state.
    fn reserve_seat(&mut self) -> Result<(), AllocError>
        ensures state { Self.state self.new ≡ Self.state self.old }
        ensures seat { OnOk result (Self.has_seat self.new) }
        ensures room { OnOk result (6 + 2 * live_count (Self.state self.old).seats ≤ (Self.room self.new).lines) }
        ensures grows { (Self.room self.old).lines ≤ (Self.room self.new).lines }
        ensures rankings { (Self.room self.new).rankings ≡ (Self.room self.old).rankings };

    /// Writes a line, for which there is room, where lines are kept.
    fn note(&mut self, id: u32, word: Word)
        requires { 1 ≤ (Self.room self.old).lines }
        ensures seats { (Self.state self.new).seats ≡ (Self.state self.old).seats }
        ensures places { (Self.state self.new).places ≡ (Self.state self.old).places }
        ensures names { (Self.state self.new).names ≡ (Self.state self.old).names }
        ensures kept { (Self.state self.new).kept ≡ (Self.state self.old).kept }
        ensures lines { (Self.state self.new).lines ≡ (if (Self.state self.old).kept
            then (Self.state self.old).lines ++ line id word ∷ [] else (Self.state self.old).lines) }
        ensures room { (Self.room self.old).lines ≤ (Self.room self.new).lines + 1 }
        ensures rankings { (Self.room self.new).rankings ≡ (Self.room self.old).rankings };

    /// A plugin at a seat is set up; whether it had its memory.
    fn init(&mut self, alloc: Global, id: u32) -> bool
        requires at { StandsAt stages.Fresh (Self.state self.old) id }
        requires room { 1 ≤ (Self.room self.old).lines }
        ensures run { Runs (Self.state self.old) (Calls id (Init result) ∷ []) (Self.state self.new) }
        ensures at { StandsAt stages.Begun (Self.state self.new) id }
        ensures room { (Self.room self.old).lines ≤ (Self.room self.new).lines + 1 }
        ensures rankings { (Self.room self.new).rankings ≡ (Self.room self.old).rankings };

    /// It hears that the search is on; whether it had its memory.
    fn init_solve(&mut self, alloc: Global, id: u32, view: &View<'_>) -> bool
        requires at { StandsAt stages.Begun (Self.state self.old) id }
        requires room { 1 ≤ (Self.room self.old).lines }
        ensures run { Runs (Self.state self.old) (Calls id (InitSolve result) ∷ []) (Self.state self.new) }
        ensures at { StandsAt stages.Playing (Self.state self.new) id }
        ensures room { (Self.room self.old).lines ≤ (Self.room self.new).lines + 1 }
        ensures rankings { (Self.room self.new).rankings ≡ (Self.room self.old).rankings };

    /// It hears that the search ends. No ranking is kept behind it.
    fn exit_solve(&mut self, id: u32)
        requires at { StandsAt stages.Playing (Self.state self.old) id }
        requires room { 1 ≤ (Self.room self.old).lines }
        ensures run { Runs (Self.state self.old) (Calls id ExitSolve ∷ []) (Self.state self.new) }
        ensures at { StandsAt stages.Left (Self.state self.new) id }
        ensures room { (Self.room self.old).lines ≤ (Self.room self.new).lines + 1 }
        ensures rankings { (Self.room self.new).rankings ≡ no_rankings };

    /// It is closed.
    fn exit(&mut self, id: u32)
        requires at { StandsAt stages.Left (Self.state self.old) id }
        requires room { 1 ≤ (Self.room self.old).lines }
        ensures run { Runs (Self.state self.old) (Calls id Exit ∷ []) (Self.state self.new) }
        ensures at { StandsAt stages.Gone (Self.state self.new) id }
        ensures room { (Self.room self.old).lines ≤ (Self.room self.new).lines + 1 }
        ensures rankings { (Self.room self.new).rankings ≡ (Self.room self.old).rankings };

    /// It is asked. `Err`: it wanted memory that was refused.
    fn ask(
        &mut self,
        alloc: Global,
        id: u32,
        question: Question<'_>,
        view: &View<'_>,
    ) -> Result<Given, AllocError>
        requires ready { CanBeAsked (Self.state self.old) (ask_of question) id }
        requires room { 1 ≤ (Self.room self.old).lines }
        ensures run { Runs (Self.state self.old)
            (Calls id (Asked (ask_of question.entry) (answer result answer_of)) ∷ []) (Self.state self.new) }
        ensures room { (Self.room self.old).lines ≤ (Self.room self.new).lines + 1 }
        ensures rankings { (Self.room self.new).rankings ≡ (Self.room self.old).rankings };

    /// A plugin is disabled while it is enabled, or enabled while it isn't, and its line is written. No ranking is kept
    /// behind it.
    fn switch(&mut self, id: u32, on: bool)
        requires at { StandsAt stages.Playing (Self.state self.old) id }
        requires other { is_enabled (slice_get (Self.state self.old).seats id) ≡ (if on then false else true) }
        requires room { 1 ≤ (Self.room self.old).lines }
        ensures run { Runs (Self.state self.old) (Turns id on ∷ []) (Self.state self.new) }
        ensures at { StandsAt stages.Playing (Self.state self.new) id }
        ensures room { (Self.room self.old).lines ≤ (Self.room self.new).lines + 1 }
        ensures rankings { (Self.room self.new).rankings ≡ no_rankings };

    /// A plugin gets a priority. No ranking is kept behind it.
    fn set_priority(&mut self, id: u32, priority: i32)
        requires at { StandsAt stages.Playing (Self.state self.old) id }
        ensures run { Runs (Self.state self.old) (Ranks id priority ∷ []) (Self.state self.new) }
        ensures at { StandsAt stages.Playing (Self.state self.new) id }
        ensures room { (Self.room self.new).lines ≡ (Self.room self.old).lines }
        ensures rankings { (Self.room self.new).rankings ≡ no_rankings };

    /// The plugin of a place of the shelf gets the next seat, uncalled. No ranking is kept behind it.
    fn come(&mut self, place: u32)
        requires held { place_fault (slice_get (Self.state self.old).places place) ≡ None }
        requires seat { Self.has_seat self.old }
        ensures run { Runs (Self.state self.old) (Takes place ∷ []) (Self.state self.new) }
        ensures at { StandsAt stages.Fresh (Self.state self.new) (length (Self.state self.old).seats) }
        ensures room { (Self.room self.new).lines ≡ (Self.room self.old).lines }
        ensures rankings { (Self.room self.new).rankings ≡ no_rankings };

    /// Takes out the ranking of a kind, if it is kept; the state stays as it was.
    fn take_ranking(&mut self, kind: Kind) -> Option<Vec<Key>>
        ensures taken { result ≡ ranking_of kind (Self.room self.old).rankings }
        ensures state { Self.state self.new ≡ Self.state self.old }
        ensures lines { (Self.room self.new).lines ≡ (Self.room self.old).lines }
        ensures left { (Self.room self.new).rankings ≡ without_ranking kind (Self.room self.old).rankings };

    /// Keeps the ranking of a kind; the state stays as it was.
    fn keep_ranking(&mut self, kind: Kind, keys: Vec<Key>)
        ensures state { Self.state self.new ≡ Self.state self.old }
        ensures lines { (Self.room self.new).lines ≡ (Self.room self.old).lines }
        ensures more { (Self.room self.new).rankings ≡ with_ranking kind keys (Self.room self.old).rankings };
}

/// What gives plugins of a type seats, uncalled.
pub(crate) trait Seats<P: Tells>: Steps {
    ghost spare: { Self → ℕ };

    /// A plugin gets the next seat; there is room for it.
    fn seat(&mut self, plugin: P)
        requires { 1 ≤ spare self.old }
        ensures seats { (fresh : Seat) × IsSeated (P.who plugin) fresh
            × ((Self.state self.new).seats ≡ (Self.state self.old).seats ++ fresh ∷ []) }
        ensures names { (Self.state self.new).names
            ≡ (Self.state self.old).names ++ shown_name (P.who plugin).label ∷ [] }
        ensures places { (Self.state self.new).places ≡ (Self.state self.old).places }
        ensures lines { (Self.state self.new).lines ≡ (Self.state self.old).lines }
        ensures kept { (Self.state self.new).kept ≡ (Self.state self.old).kept }
        ensures room { Self.room self.new ≡ Self.room self.old }
        ensures spare { spare self.old ≡ spare self.new + 1 };
}
