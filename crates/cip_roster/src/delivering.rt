//! Delivery of events.
ghost use Rattle.std.specs.Prelude.{◌≡◌, [], ◌∷◌, OnOk, OnErr, MatchOption, IsSome, slice_get};
ghost use Rattle.cip_plugin.specs.Asking.{answer_of};
ghost use Rattle.cip_plugin.specs.Delivering.{Delivered, wishes_in};
ghost use Rattle.cip_plugin.specs.declared.kinds.Kind.TheVariants as kinds;
ghost use Rattle.cip_roster.specs.KeptRankings.{IsRanking};
ghost use Rattle.cip_roster.specs.Turns.{IsSound};
ghost use Rattle.cip_roster.specs.Wished.{Ran, TookQuietly, WasTold, WasToldOne};

use crate::calling::ranked;
use crate::rosters::Seated;
use crate::steps::Steps;
use crate::turns::turn;
use crate::wishing::{refused, wish as try_wish};
use cip_events::{Event, EventQueue};
use cip_plugin::{Given, Key, Kind, Question, View, Wish, WishFault};
use std::alloc::{AllocError, Global};

/// The wishes of what was given, if anything was.
fn wishes_of(given: &Option<Given>) -> &[Wish]
    ensures { MatchOption given.now (result.now ≡ []) (λ brought. result.now ≡ wishes_in (answer_of brought)) }
{
    match given {
        Some(Given::Wishes(wishes)) => wishes.as_slice(),
        _ => &[],
    }
}

/// Tries a wish of a plugin, and writes which fault it had. `Err` comes where a growth was refused, and leaves the
/// state as it was.
fn grant_one<R: Steps>(
    roster: &mut R,
    alloc: Global,
    id: u32,
    wish: Wish,
    queue: &mut EventQueue,
    view: &View<'_>,
) -> Result<(), AllocError>
    requires sound { IsSound (R.state roster.old) (R.room roster.old) }
    requires seat { IsSome (slice_get (R.state roster.old).seats id) }
    ensures sound { IsSound (R.state roster.new) (R.room roster.new) }
    ensures took { OnOk result (TookQuietly id view.now.node (wish ∷ []) (R.state roster.old) (R.state roster.new)
        queue.old queue.new) }
    ensures err { OnErr result (R.state roster.new ≡ R.state roster.old) }
{
    match try_wish(roster, alloc, wish, queue, view) {
        Ok(()) => Ok(()),
        Err(fault) => match fault {
            WishFault::NoMemory => Err(AllocError),
            other => refused(roster, id, other.name()),
        },
    }
}

/// Tries the wishes of a plugin, in their order, and writes which faults they had. `Err` comes where a growth was
/// refused: the wishes before it stand.
fn grant<R: Steps>(
    roster: &mut R,
    alloc: Global,
    id: u32,
    wishes: &[Wish],
    queue: &mut EventQueue,
    view: &View<'_>,
) -> Result<(), AllocError>
    requires sound { IsSound (R.state roster.old) (R.room roster.old) }
    requires seat { IsSome (slice_get (R.state roster.old).seats id) }
    ensures sound { IsSound (R.state roster.new) (R.room roster.new) }
    ensures took { OnOk result (TookQuietly id view.now.node wishes.now (R.state roster.old) (R.state roster.new)
        queue.old queue.new) }
    ensures err { OnErr result (Ran (R.state roster.old) (R.state roster.new)) }
{
    for wish in wishes {
        let Ok(()) = grant_one(roster, alloc, id, *wish, queue, view) else {
            return Err(AllocError);
        };
    }
    Ok(())
}

/// Tells an event to a plugin, if it is live and enabled and wants it, and grants its wishes.
fn tell_one<R: Steps>(
    roster: &mut R,
    alloc: Global,
    id: u32,
    event: Event,
    queue: &mut EventQueue,
    view: &View<'_>,
) -> Result<(), AllocError>
    requires sound { IsSound (R.state roster.old) (R.room roster.old) }
    requires seat { IsSome (slice_get (R.state roster.old).seats id) }
    ensures sound { IsSound (R.state roster.new) (R.room roster.new) }
    ensures told { OnOk result (WasToldOne view.now.node event id (R.state roster.old)
        (R.state roster.new) queue.old queue.new) }
    ensures err { OnErr result (Ran (R.state roster.old) (R.state roster.new)) }
{
    if !roster.is_to_hear(id, &event) {
        return Ok(());
    }
    let Ok(()) = roster.reserve_turns(1) else {
        return Err(AllocError);
    };
    let given = turn(roster, alloc, id, Question::OnEvent(event), view);
    let granted = grant(roster, alloc, id, wishes_of(&given), queue, view);
    drop(given);
    granted
}

/// Tells an event to these handlers, if they want it and are live and enabled at their turn, and grants their wishes.
fn tell_each<R: Steps>(
    roster: &mut R,
    alloc: Global,
    keys: &[Key],
    event: Event,
    queue: &mut EventQueue,
    view: &View<'_>,
) -> Result<(), AllocError>
    requires sound { IsSound (R.state roster.old) (R.room roster.old) }
    requires ranking { IsRanking kinds.EventHandler (R.state roster.old).seats keys.now }
    ensures sound { IsSound (R.state roster.new) (R.room roster.new) }
    ensures told { OnOk result (WasTold view.now.node event (R.state roster.old)
        (R.state roster.new) queue.old queue.new) }
    ensures err { OnErr result (Ran (R.state roster.old) (R.state roster.new)) }
{
    for key in keys {
        let Ok(()) = tell_one(roster, alloc, key.id, event, queue, view) else {
            return Err(AllocError);
        };
    }
    Ok(())
}

/// Tells an event to all handlers, in the order in which they stand as it is taken: a copy of it, which stays as it is
/// while wishes are granted.
fn tell<R: Steps>(
    roster: &mut R,
    alloc: Global,
    event: Event,
    queue: &mut EventQueue,
    view: &View<'_>,
) -> Result<(), AllocError>
    requires sound { IsSound (R.state roster.old) (R.room roster.old) }
    ensures sound { IsSound (R.state roster.new) (R.room roster.new) }
    ensures told { OnOk result (WasTold view.now.node event (R.state roster.old)
        (R.state roster.new) queue.old queue.new) }
    ensures err { OnErr result (Ran (R.state roster.old) (R.state roster.new)) }
{
    let Ok(keys) = ranked(roster, alloc, Kind::EventHandler) else {
        return Err(AllocError);
    };
    let Ok(order) = Vec::from_slice(alloc, keys.as_slice()) else {
        return Err(AllocError);
    };
    roster.keep_ranking(Kind::EventHandler, keys);
    tell_each(roster, alloc, order.as_slice(), event, queue, view)
}

/// Tells all events that wait, and those that inclusions and frees raise meanwhile. `Err` comes where a growth was
/// refused: what was called and granted before it stands.
pub(crate) fn deliver<R: Steps>(
    roster: &mut R,
    alloc: Global,
    queue: &mut EventQueue,
    view: &View<'_>,
) -> Result<(), AllocError>
    requires sound { IsSound (R.state roster.old) (R.room roster.old) }
    ensures sound { IsSound (R.state roster.new) (R.room roster.new) }
    ensures empty { OnOk result (queue.new ≡ []) }
    ensures told { OnOk result (Delivered view.now.node queue.old (R.state roster.old)
        (R.state roster.new)) }
    ensures err { OnErr result (Ran (R.state roster.old) (R.state roster.new)) }
{
    while let Some(event) = queue.pop() {
        let Ok(()) = tell(roster, alloc, event, queue, view) else {
            return Err(AllocError);
        };
    }
    Ok(())
}
