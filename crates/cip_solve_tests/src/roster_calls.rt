//! Calls of plugins, and what is kept of them.
ghost use Rattle.cip_roster.specs.Turns.{IsSound};

use crate::fakes::{Fake, QUIET, says};
use cip_plugin::{Given, View};
use cip_roster::{Roster, Seated};
use std::alloc::{AllocError, Global};

/// Whether a list, which is dropped, has nothing in it.
fn is_empty<T: Drop>(list: Vec<T>) -> bool {
    let is_so = list.is_empty();
    drop(list);
    is_so
}

/// Whether no call of all plugins of a kind gives anything.
fn lists_are_empty(roster: &mut Roster, alloc: Global, view: &View<'_>) -> Result<bool, AllocError>
    requires { IsSound (⟦<Roster as Seated>⟧.state roster.old) (⟦<Roster as Seated>⟧.room roster.old) }
    ensures { IsSound (⟦<Roster as Seated>⟧.state roster.new) (⟦<Roster as Seated>⟧.room roster.new) }
{
    let cuts = is_empty(roster.call_separators(alloc, view)?);
    let reductions = is_empty(roster.call_propagators(alloc, view)?);
    let priced = is_empty(roster.call_pricers(alloc, view, 0, &[])?);
    let guesses = is_empty(roster.call_heuristics(alloc, view)?);
    Ok(cuts && reductions && priced && guesses)
}

/// Whether there is no next rule.
fn rules_end(roster: &mut Roster, alloc: Global, view: &View<'_>) -> Result<bool, AllocError>
    requires { IsSound (⟦<Roster as Seated>⟧.state roster.old) (⟦<Roster as Seated>⟧.room roster.old) }
    ensures { IsSound (⟦<Roster as Seated>⟧.state roster.new) (⟦<Roster as Seated>⟧.room roster.new) }
{
    match roster.call_rules(alloc, view, None)? {
        Some(found) => {
            drop(found);
            Ok(false)
        }
        None => Ok(true),
    }
}

/// Whether there is no next handler.
fn enforcers_end(roster: &mut Roster, alloc: Global, view: &View<'_>) -> Result<bool, AllocError>
    requires { IsSound (⟦<Roster as Seated>⟧.state roster.old) (⟦<Roster as Seated>⟧.room roster.old) }
{
    match roster.call_enforcers(alloc, view, None)? {
        Some(found) => {
            drop(found);
            Ok(false)
        }
        None => Ok(roster.trace().is_empty()),
    }
}

/// Whether a roster without plugins gives nothing.
pub fn gives_nothing(
    roster: &mut Roster,
    alloc: Global,
    view: &View<'_>,
) -> Result<bool, AllocError>
    requires { IsSound (⟦<Roster as Seated>⟧.state roster.old) (⟦<Roster as Seated>⟧.room roster.old) }
{
    let lists = lists_are_empty(roster, alloc, view)?;
    let rules = rules_end(roster, alloc, view)?;
    let enforcers = enforcers_end(roster, alloc, view)?;
    Ok(lists && rules && enforcers)
}

/// Heuristics of three priorities: one brings 65 points, one brings one, and one wants memory at each call.
pub const FINDERS: [Fake; 3] = [
    Fake {
        points: 65,
        ..QUIET
    },
    Fake {
        priority: 5,
        points: 1,
        ..QUIET
    },
    Fake {
        priority: 9,
        wants_memory: true,
        ..QUIET
    },
];

/// What is written as they are called: by falling priority, those that answer with their first 64 points.
static LINES: [(u32, &'static str); 13] = [
    (0, "init"),
    (0, "init_solve"),
    (1, "init"),
    (1, "init_solve"),
    (2, "init"),
    (2, "nomemory"),
    (2, "init_solve"),
    (2, "nomemory"),
    (2, "search"),
    (2, "nomemory"),
    (1, "search"),
    (0, "search"),
    (0, "dropped"),
];

/// How many points are given by each that answered, by its number.
fn counts_are(given: &[(u32, Given)], wanted: &[(u32, usize)]) -> bool {
    if given.len() != wanted.len() {
        return false;
    }
    for i in 0..wanted.len() {
        let (id, count) = wanted[i];
        let is_so = match &given[i].1 {
            Given::Guesses(guesses) => guesses.len() == count,
            _ => false,
        };
        if given[i].0 != id || !is_so {
            return false;
        }
    }
    true
}

/// Whether the heuristics are called as is said in the tables.
pub fn are_ranked(roster: &mut Roster, alloc: Global, view: &View<'_>) -> Result<bool, AllocError>
    requires { IsSound (⟦<Roster as Seated>⟧.state roster.old) (⟦<Roster as Seated>⟧.room roster.old) }
{
    let given = roster.call_heuristics(alloc, view)?;
    let are_counted = counts_are(&given, &[(1, 1), (0, 64)]);
    drop(given);
    Ok(are_counted && says(roster.trace(), &LINES))
}
