//! Wishes: plugins come, are disabled and enabled, get priorities, and are freed.
ghost use Rattle.std.specs.Prelude.{◌≡◌, ◌++◌, [], ◌∷◌, OnOk, OnErr, MatchResult, IsSome, is_ok, slice_get, if◌then◌else◌};
ghost use Rattle.cip_events.specs.declared.words.Word.TheVariants as say;
ghost use Rattle.cip_plugin.specs.declared.proposals.Wish.TheVariants.{Include, Disable, Enable, Free, Priority};
ghost use Rattle.cip_plugin.specs.Steps.{Runs, Notes};
ghost use Rattle.cip_plugin.specs.Wishing.{raised_by};
ghost use Rattle.cip_roster.specs.Turns.{IsSound};
ghost use Rattle.cip_roster.specs.Wished.{WasGranted, WasRefused};

use crate::rosters::Seated;
use crate::steps::Steps;
use crate::turns::{begin, end};
use cip_events::{Event, EventKind, EventQueue, Word};
use cip_plugin::{View, Wish, WishFault};
use std::alloc::{AllocError, Global};

/// Includes the plugin of a place of the shelf.
fn include<R: Steps>(
    roster: &mut R,
    alloc: Global,
    place: u32,
    queue: &mut EventQueue,
    view: &View<'_>,
) -> Result<(), WishFault>
    requires sound { IsSound (R.state roster.old) (R.room roster.old) }
    ensures sound { IsSound (R.state roster.new) (R.room roster.new) }
    ensures came { MatchResult result
        (λ _. WasGranted (Include place) (R.state roster.old)
        (R.state roster.new))
        (λ fault. WasRefused (Include place) fault (R.state roster.old)
        (R.state roster.new)) }
    ensures queue { queue.new
        ≡ queue.old ++ (if is_ok result then raised_by view.now.node (Include place) else []) }
{
    roster.holds(place)?;
    let id = roster.count() as u32;
    let Ok(()) = roster.reserve_seat() else {
        return Err(WishFault::NoMemory);
    };
    let Ok(()) = queue.push(Event::at(view.node, EventKind::PluginIncluded)) else {
        return Err(WishFault::NoMemory);
    };
    roster.come(place);
    begin(roster, alloc, id, view);
    Ok(())
}

/// Enables or disables a plugin; nothing changes where it is so already.
fn switch<R: Steps>(roster: &mut R, id: u32, on: bool) -> Result<(), WishFault>
    requires sound { IsSound (R.state roster.old) (R.room roster.old) }
    ensures sound { IsSound (R.state roster.new) (R.room roster.new) }
    ensures came { MatchResult result
        (λ _. WasGranted (if on then Enable id else Disable id) (R.state roster.old) (R.state roster.new))
        (λ fault. WasRefused (if on then Enable id else Disable id) fault (R.state roster.old)
        (R.state roster.new)) }
{
    match roster.live(id) {
        Ok(()) => {}
        Err(fault) => return Err(fault),
    }
    let Ok(()) = roster.reserve_turns(1) else {
        return Err(WishFault::NoMemory);
    };
    if roster.is_enabled(id) == on {
        return Ok(());
    }
    roster.switch(id, on);
    Ok(())
}

/// Gives a plugin a priority.
fn rank<R: Steps>(roster: &mut R, id: u32, priority: i32) -> Result<(), WishFault>
    requires sound { IsSound (R.state roster.old) (R.room roster.old) }
    ensures sound { IsSound (R.state roster.new) (R.room roster.new) }
    ensures came { MatchResult result
        (λ _. WasGranted (Priority id priority) (R.state roster.old)
        (R.state roster.new))
        (λ fault. WasRefused (Priority id priority) fault (R.state roster.old)
        (R.state roster.new)) }
{
    roster.live(id)?;
    roster.set_priority(id, priority);
    Ok(())
}

/// Frees a plugin: it hears that the search ends, and is closed.
fn free<R: Steps>(
    roster: &mut R,
    id: u32,
    queue: &mut EventQueue,
    node: u64,
) -> Result<(), WishFault>
    requires sound { IsSound (R.state roster.old) (R.room roster.old) }
    ensures sound { IsSound (R.state roster.new) (R.room roster.new) }
    ensures came { MatchResult result
        (λ _. WasGranted (Free id) (R.state roster.old) (R.state roster.new))
        (λ fault. WasRefused (Free id) fault (R.state roster.old)
        (R.state roster.new)) }
    ensures queue { queue.new ≡ queue.old ++ (if is_ok result then raised_by node (Free id) else []) }
{
    roster.live(id)?;
    let Ok(()) = queue.push(Event::at(node, EventKind::PluginFreed)) else {
        return Err(WishFault::NoMemory);
    };
    end(roster, id);
    Ok(())
}

/// Grants a wish, or says why not: then nothing has changed. An event is raised at an inclusion and at a free.
pub(crate) fn wish<R: Steps>(
    roster: &mut R,
    alloc: Global,
    wish: Wish,
    queue: &mut EventQueue,
    view: &View<'_>,
) -> Result<(), WishFault>
    requires sound { IsSound (R.state roster.old) (R.room roster.old) }
    ensures sound { IsSound (R.state roster.new) (R.room roster.new) }
    ensures came { MatchResult result
        (λ _. WasGranted wish (R.state roster.old) (R.state roster.new))
        (λ fault. WasRefused wish fault (R.state roster.old)
        (R.state roster.new)) }
    ensures queue { queue.new ≡ queue.old ++ (if is_ok result then raised_by view.now.node wish else []) }
{
    match wish {
        Wish::Include(place) => include(roster, alloc, place, queue, view),
        Wish::Disable(id) => switch(roster, id, false),
        Wish::Enable(id) => switch(roster, id, true),
        Wish::Free(id) => free(roster, id, queue, view.node),
        Wish::Priority(id, priority) => rank(roster, id, priority),
    }
}

/// Writes that a proposal of a plugin was refused, for the fault of this name. `Err` comes where a growth was
/// refused, and leaves the roster as it was.
pub(crate) fn refused<R: Steps>(
    roster: &mut R,
    id: u32,
    fault: &'static str,
) -> Result<(), AllocError>
    requires sound { IsSound (R.state roster.old) (R.room roster.old) }
    requires seat { IsSome (slice_get (R.state roster.old).seats id) }
    ensures sound { IsSound (R.state roster.new) (R.room roster.new) }
    ensures noted { OnOk result (Runs (R.state roster.old)
        (Notes id (say.Refused fault.entry) ∷ []) (R.state roster.new)) }
    ensures same { OnErr result (R.state roster.new ≡ R.state roster.old) }
{
    let Ok(()) = roster.reserve_turns(1) else {
        return Err(AllocError);
    };
    roster.note(id, Word::Refused(fault));
    Ok(())
}
