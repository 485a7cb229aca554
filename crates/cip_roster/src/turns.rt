//! What begins a life and ends it, and a plugin's turn.
ghost use Rattle.std.specs.Prelude.{◌≡◌, [], ◌∷◌, ◌+◌, ◌≤◌, if◌then◌else◌, Bool, true, IsSome, slice_get};
ghost use Rattle.cip_plugin.specs.Asking.{ask_of};
ghost use Rattle.cip_plugin.specs.Steps.{Runs, Notes, is_note};
ghost use Rattle.cip_plugin.specs.Wishing.{begins, ends};
ghost use Rattle.cip_plugin.specs.declared.stages.Stage.TheVariants as stages;
ghost use Rattle.cip_roster.specs.KeptRankings.{no_rankings};
ghost use Rattle.cip_roster.specs.Turns.{CanBeAsked, HadTurn, StandsAt};

use crate::rosters::Seated;
use crate::steps::Steps;
use cip_events::Word;
use cip_plugin::{Given, Question, View};
use std::alloc::Global;

/// A note about a plugin is written, unless there is nothing to be said.
fn note_unless<R: Steps>(roster: &mut R, id: u32, nothing: bool, word: Word)
    requires note { is_note word ≡ true }
    requires seat { IsSome (slice_get (R.state roster.old).seats id) }
    requires room { 1 ≤ (R.room roster.old).lines }
    ensures run { Runs (R.state roster.old) (if nothing then [] else Notes id word ∷ []) (R.state roster.new) }
    ensures room { (R.room roster.old).lines ≤ (R.room roster.new).lines + 1 }
    ensures rankings { (R.room roster.new).rankings ≡ (R.room roster.old).rankings }
    ensures seats { (R.state roster.new).seats ≡ (R.state roster.old).seats }
{
    if nothing {
        return;
    }
    roster.note(id, word);
}

/// A plugin at a seat is set up, and hears that the search is on; each want of memory is written.
pub(crate) fn begin<R: Steps>(roster: &mut R, alloc: Global, id: u32, view: &View<'_>)
    requires at { StandsAt stages.Fresh (R.state roster.old) id }
    requires room { 4 ≤ (R.room roster.old).lines }
    ensures run { (answered : Bool × Bool) × Runs (R.state roster.old) (begins id answered.0 answered.1)
        (R.state roster.new) }
    ensures at { StandsAt stages.Playing (R.state roster.new) id }
    ensures room { (R.room roster.old).lines ≤ (R.room roster.new).lines + 4 }
    ensures rankings { (R.room roster.new).rankings ≡ (R.room roster.old).rankings }
{
    let first = roster.init(alloc, id);
    note_unless(roster, id, first, Word::NoMemory);
    let second = roster.init_solve(alloc, id, view);
    note_unless(roster, id, second, Word::NoMemory);
}

/// It hears that the search ends, and is closed. No ranking is kept behind it.
pub(crate) fn end<R: Steps>(roster: &mut R, id: u32)
    requires at { StandsAt stages.Playing (R.state roster.old) id }
    requires room { 2 ≤ (R.room roster.old).lines }
    ensures run { Runs (R.state roster.old) (ends id) (R.state roster.new) }
    ensures at { StandsAt stages.Gone (R.state roster.new) id }
    ensures room { (R.room roster.old).lines ≤ (R.room roster.new).lines + 2 }
    ensures rankings { (R.room roster.new).rankings ≡ no_rankings }
{
    roster.exit_solve(id);
    roster.exit(id);
}

/// Asks a plugin that is live and enabled, and writes what is to be written; what it gives is cut short after 64
/// proposals. `None`: it wanted memory that was refused.
pub(crate) fn turn<R: Steps>(
    roster: &mut R,
    alloc: Global,
    id: u32,
    question: Question<'_>,
    view: &View<'_>,
) -> Option<Given>
    requires ready { CanBeAsked (R.state roster.old) (ask_of question) id }
    requires room { 2 ≤ (R.room roster.old).lines }
    ensures turn { HadTurn id (ask_of question.entry) (R.state roster.old) (R.state roster.new) result }
    ensures room { (R.room roster.old).lines ≤ (R.room roster.new).lines + 2 }
    ensures rankings { (R.room roster.new).rankings ≡ (R.room roster.old).rankings }
{
    match roster.ask(alloc, id, question, view) {
        Ok(mut given) => {
            let past = given.cut_short();
            note_unless(roster, id, past == 0, Word::Dropped(past as u64));
            Some(given)
        }
        Err(_) => {
            note_unless(roster, id, false, Word::NoMemory);
            None
        }
    }
}
