//! How a roster ends, and what it leaves.
ghost use Rattle.std.specs.Prelude.{◌+◌, ◌≤◌, All, IsSome, OnOk, length, slice_get, vec_len, vec_capacity};
ghost use Rattle.cip_plugin.specs.Seats.{held_count};
ghost use Rattle.cip_roster.specs.Turns.{IsSound};
ghost use Rattle.cip_roster.specs.Wished.{Ran};

use crate::fakes::says;
use cip_events::{EventQueue, Trace};
use cip_plugin::{Given, Kit, View, Wish};
use cip_roster::{Roster, Seated};
use std::alloc::{AllocError, Global};

/// What is written where 0 tells and 1 doesn't, one more is included from the shelf and 1 is freed, the others are
/// called, what they give is refused, and all are closed.
static LINES: [(u32, &'static str); 16] = [
    (0, "init"),
    (0, "init_solve"),
    (1, "init"),
    (1, "init_solve"),
    (2, "init"),
    (2, "init_solve"),
    (1, "exit_solve"),
    (1, "exit"),
    (0, "search"),
    (2, "search"),
    (0, "Full"),
    (2, "Full"),
    (0, "exit_solve"),
    (0, "exit"),
    (2, "exit_solve"),
    (2, "exit"),
];

/// The numbers of those that are spent.
const SPENT: [Option<u32>; 4] = [Some(0), Some(1), Some(2), None];

/// The names of those that had numbers.
const NAMES: [&'static str; 3] = ["teller", "fake", "fake"];

/// Whether plugins are spent with the numbers of the table.
fn are_spent(kit: &Kit) -> bool {
    if kit.spent.len() != SPENT.len() {
        return false;
    }
    for i in 0..SPENT.len() {
        if kit.spent[i].id != SPENT[i] {
            return false;
        }
    }
    true
}

/// Whether a trace has the names of the table.
fn are_named(trace: &Trace) -> bool {
    if trace.names.len() != NAMES.len() {
        return false;
    }
    for i in 0..NAMES.len() {
        if trace.names[i].as_bytes() != NAMES[i].as_bytes() {
            return false;
        }
    }
    true
}

/// Includes the plugin of the first place, and frees the one of number 1; whether both is granted.
fn are_granted(roster: &mut Roster, alloc: Global, view: &View<'_>) -> bool
    requires sound { IsSound (⟦<Roster as Seated>⟧.state roster.old) (⟦<Roster as Seated>⟧.room roster.old) }
    ensures sound { IsSound (⟦<Roster as Seated>⟧.state roster.new) (⟦<Roster as Seated>⟧.room roster.new) }
    ensures ran { Ran (⟦<Roster as Seated>⟧.state roster.old) (⟦<Roster as Seated>⟧.state roster.new) }
{
    let mut queue = EventQueue::new(alloc);
    let first = roster.wish(alloc, Wish::Include(0), &mut queue, view);
    let second = roster.wish(alloc, Wish::Free(1), &mut queue, view);
    first.is_ok() && second.is_ok()
}

/// Writes that what two plugins gave was refused.
fn refuse(roster: &mut Roster, given: &[(u32, Given)]) -> Result<(), AllocError>
    requires sound { IsSound (⟦<Roster as Seated>⟧.state roster.old) (⟦<Roster as Seated>⟧.room roster.old) }
    requires seated { All (λ entry. IsSome (slice_get (⟦<Roster as Seated>⟧.state roster.old).seats entry.0))
        given.now }
    ensures sound { IsSound (⟦<Roster as Seated>⟧.state roster.new) (⟦<Roster as Seated>⟧.room roster.new) }
    ensures ran { OnOk result (Ran (⟦<Roster as Seated>⟧.state roster.old) (⟦<Roster as Seated>⟧.state roster.new)) }
{
    if given.len() != 2 {
        return Ok(());
    }
    roster.refused(given[0].0, "Full")?;
    roster.refused(given[1].0, "Full")
}

/// Whether a roster of two plugins and two on the shelf leaves what is said in the tables.
pub fn ends_well(
    roster: &mut Roster,
    kit: &mut Kit,
    alloc: Global,
    view: &View<'_>,
) -> Result<bool, AllocError>
    requires sound { IsSound (⟦<Roster as Seated>⟧.state roster.old) (⟦<Roster as Seated>⟧.room roster.old) }
    requires room { vec_len kit.old.spent + (length (⟦<Roster as Seated>⟧.state roster.old).seats
        + held_count (⟦<Roster as Seated>⟧.state roster.old).places) ≤ vec_capacity kit.old.spent }
{
    let granted = are_granted(roster, alloc, view);
    let given = roster.call_heuristics(alloc, view)?;
    refuse(roster, &given)?;
    roster.close(kit);
    let trace = roster.take_trace(alloc);
    let none = roster.trace().is_empty();
    drop(given);
    let is_said = are_named(&trace) && says(&trace.lines, &LINES);
    drop(trace);
    Ok(granted && none && are_spent(kit) && is_said)
}
