//! Deliveries of events to handlers that wish.
ghost use Rattle.cip_roster.specs.Turns.{IsSound};

use crate::fakes::says;
use cip_events::{Event, EventKind, EventQueue};
use cip_plugin::{View, Wish};
use cip_roster::{Roster, Seated};
use std::alloc::{AllocError, Global};

/// What two handlers wish at each event of a kind, and the lines of a delivery, behind those of their beginning. A
/// heuristic stands on the shelf.
#[derive(Clone, Copy)]
pub struct Delivery {
    pub wishes: [(Wish, EventKind); 2],
    pub lines: &'static [(u32, &'static str)],
}

/// The first frees itself, which the second hears: it is refused to free it again, and nothing is left to tell.
pub const FREES_ITSELF: Delivery = Delivery {
    wishes: [
        (Wish::Free(0), EventKind::LpSolved),
        (Wish::Free(0), EventKind::PluginFreed),
    ],
    lines: &[
        (0, "on_event"),
        (0, "exit_solve"),
        (0, "exit"),
        (1, "on_event"),
        (1, "Gone"),
    ],
};

/// Each enables the other, which is so already.
pub const ENABLE_EACH_OTHER: Delivery = Delivery {
    wishes: [
        (Wish::Enable(1), EventKind::LpSolved),
        (Wish::Enable(0), EventKind::LpSolved),
    ],
    lines: &[(0, "on_event"), (1, "on_event")],
};

/// The first frees the second, which isn't told the event any more.
pub const FREES_THE_NEXT: Delivery = Delivery {
    wishes: [
        (Wish::Free(1), EventKind::LpSolved),
        (Wish::Enable(0), EventKind::LpSolved),
    ],
    lines: &[(0, "on_event"), (1, "exit_solve"), (1, "exit")],
};

/// The first disables the second, which is passed over.
pub const DISABLES_THE_NEXT: Delivery = Delivery {
    wishes: [
        (Wish::Disable(1), EventKind::LpSolved),
        (Wish::Enable(0), EventKind::LpSolved),
    ],
    lines: &[(0, "on_event"), (1, "disabled")],
};

/// The first includes the heuristic, and the second, which hears of it, cannot do so again.
pub const INCLUDE_ONE: Delivery = Delivery {
    wishes: [
        (Wish::Include(0), EventKind::LpSolved),
        (Wish::Include(0), EventKind::PluginIncluded),
    ],
    lines: &[
        (0, "on_event"),
        (2, "init"),
        (2, "init_solve"),
        (1, "on_event"),
        (1, "TakenPlace"),
    ],
};

/// Delivers one event of a queue, which is put there.
fn deliver_one(
    roster: &mut Roster,
    alloc: Global,
    queue: &mut EventQueue,
    view: &View<'_>,
) -> Result<(), AllocError>
    requires { IsSound (⟦<Roster as Seated>⟧.state roster.old) (⟦<Roster as Seated>⟧.room roster.old) }
{
    queue.push(Event::at(7, EventKind::LpSolved))?;
    roster.deliver(alloc, queue, view)
}

/// Whether a delivery of one event ends with an empty queue and these lines, behind the four of the beginning.
pub fn is_told(
    roster: &mut Roster,
    alloc: Global,
    view: &View<'_>,
    lines: &[(u32, &'static str)],
) -> Result<bool, AllocError>
    requires { IsSound (⟦<Roster as Seated>⟧.state roster.old) (⟦<Roster as Seated>⟧.room roster.old) }
{
    let mut queue = EventQueue::new(alloc);
    let delivered = deliver_one(roster, alloc, &mut queue, view);
    let is_empty = queue.is_empty();
    drop(queue);
    delivered?;
    match roster.trace().get(4..) {
        None => Ok(false),
        Some(written) => Ok(is_empty && says(written, lines)),
    }
}
