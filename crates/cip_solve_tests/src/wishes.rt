//! Wishes, one by one.
ghost use Rattle.cip_roster.specs.Turns.{IsSound};

use crate::fakes::says;
use cip_events::EventQueue;
use cip_plugin::{View, Wish};
use cip_roster::{Roster, Seated, WishFault};
use std::alloc::Global;

/// Wishes in their order, where one heuristic stands on the shelf, and the fault of each.
static WISHES: [(Wish, Option<WishFault>); 14] = [
    (Wish::Include(9), Some(WishFault::NoSuchPlace)),
    (Wish::Free(0), Some(WishFault::NoSuchPlugin)),
    (Wish::Include(0), None),
    (Wish::Include(0), Some(WishFault::TakenPlace)),
    (Wish::Free(9), Some(WishFault::NoSuchPlugin)),
    (Wish::Enable(0), None),
    (Wish::Disable(0), None),
    (Wish::Disable(0), None),
    (Wish::Enable(0), None),
    (Wish::Priority(0, 3), None),
    (Wish::Free(0), None),
    (Wish::Free(0), Some(WishFault::Gone)),
    (Wish::Disable(0), Some(WishFault::Gone)),
    (Wish::Priority(0, 3), Some(WishFault::Gone)),
];

/// What is written meanwhile.
static LINES: [(u32, &'static str); 6] = [
    (0, "init"),
    (0, "init_solve"),
    (0, "disabled"),
    (0, "enabled"),
    (0, "exit_solve"),
    (0, "exit"),
];

/// Whether wishes come to what is said there, one after the other.
fn come_to(
    roster: &mut Roster,
    alloc: Global,
    queue: &mut EventQueue,
    view: &View<'_>,
    wishes: &[(Wish, Option<WishFault>)],
) -> bool
    requires { IsSound (⟦<Roster as Seated>⟧.state roster.old) (⟦<Roster as Seated>⟧.room roster.old) }
{
    let [(wish, fault), rest @ ..] = wishes else {
        return true;
    };
    roster.wish(alloc, *wish, queue, view).err() == *fault
        && come_to(roster, alloc, queue, view, rest)
}

/// Whether the wishes of the table come to what is said there, and their lines are written.
pub fn are_wished(roster: &mut Roster, alloc: Global, view: &View<'_>) -> bool
    requires { IsSound (⟦<Roster as Seated>⟧.state roster.old) (⟦<Roster as Seated>⟧.room roster.old) }
{
    let mut queue = EventQueue::new(alloc);
    let come = come_to(roster, alloc, &mut queue, view, &WISHES);
    come && queue.len() == 2 && says(roster.trace(), &LINES)
}
