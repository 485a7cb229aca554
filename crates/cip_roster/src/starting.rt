//! How a roster begins.
ghost use Rattle.std.specs.Prelude.{◌≡◌, ◌+◌, ◌-◌, ◌^◌, ◌<◌, ◌≤◌, ◌*◌, List, [], Bool, Some, All, length, map, IfOk, OnOk, OnErr, vec_len, vec_capacity};
ghost use Rattle.cip_events.specs.Names.{shown_name};
ghost use Rattle.cip_plugin.specs.Who.{Who};
ghost use Rattle.cip_plugin.specs.Seats.{held_count};
ghost use Rattle.cip_plugin.specs.Steps.{Runs};
ghost use Rattle.cip_roster.specs.KeptRankings.{no_rankings};
ghost use Rattle.cip_roster.specs.Turns.{IsSound};
ghost use Rattle.cip_roster.specs.Begun.{AreSeated, IsBegun, IsFresh, IsPlaying, all_begin};

use crate::moves::shelve;
use crate::rankings::Rankings;
use crate::rosters::{Roster, Seated};
use crate::steps::{Seats, Steps};
use crate::turns::begin;
use cip_events::{Name, TraceLine};
use cip_plugin::{AnyPlugin, Kit, Tells, View};
use std::alloc::{AllocError, Global};
use std::marker::PhantomData;

/// Calls each plugin for the first two times, by number.
fn begin_all<R: Steps>(roster: &mut R, alloc: Global, view: &View<'_>)
    requires fresh { All IsFresh (R.state roster.old).seats }
    requires numbers { length (R.state roster.old).seats < 2 ^ 32 }
    requires room { 6 * length (R.state roster.old).seats ≤ (R.room roster.old).lines }
    ensures run { (answered : List (Bool × Bool)) × Runs (R.state roster.old)
        (all_begin 0 answered) (R.state roster.new) }
    ensures playing { All IsPlaying (R.state roster.new).seats }
    ensures seats { length (R.state roster.new).seats ≡ length (R.state roster.old).seats }
    ensures places { (R.state roster.new).places ≡ (R.state roster.old).places }
    ensures room { 2 * length (R.state roster.old).seats ≤ (R.room roster.new).lines }
    ensures rankings { (R.room roster.new).rankings ≡ (R.room roster.old).rankings }
{
    for id in 0..roster.count() {
        begin(roster, alloc, id as u32, view);
    }
}

/// Gives plugins seats, in their order, without calling them; there is room for all.
fn seat_all<P: Tells + Drop, R: Seats<P>>(roster: &mut R, plugins: &mut Vec<P>)
    requires spare { length plugins.old.items ≤ R.spare roster.old }
    requires first { (R.state roster.old).seats ≡ [] }
    requires unnamed { (R.state roster.old).names ≡ [] }
    ensures seats { AreSeated (map P.who plugins.old.items) (R.state roster.new).seats }
    ensures names { (R.state roster.new).names ≡ map (λ who. shown_name who.label) (map P.who plugins.old.items) }
    ensures places { (R.state roster.new).places ≡ (R.state roster.old).places }
    ensures lines { (R.state roster.new).lines ≡ (R.state roster.old).lines }
    ensures kept { (R.state roster.new).kept ≡ (R.state roster.old).kept }
    ensures room { R.room roster.new ≡ R.room roster.old }
    ensures none { plugins.new.items ≡ [] }
{
    for plugin in plugins.drain(..) {
        roster.seat(plugin);
    }
}

/// Gives plugins seats, in their order, and calls each of them for the first two times.
fn admit<P: Tells + Drop, R: Seats<P>>(
    roster: &mut R,
    alloc: Global,
    plugins: &mut Vec<P>,
    view: &View<'_>,
)
    requires spare { length plugins.old.items ≤ R.spare roster.old }
    requires first { (R.state roster.old).seats ≡ [] }
    requires unnamed { (R.state roster.old).names ≡ [] }
    requires unwritten { (R.state roster.old).lines ≡ [] }
    requires numbers { length plugins.old.items + held_count (R.state roster.old).places < 2 ^ 32 }
    requires room { 6 * length plugins.old.items ≤ (R.room roster.old).lines }
    requires unranked { (R.room roster.old).rankings ≡ no_rankings }
    ensures begun { (shelf : List Who) → (R.state roster.old).places ≡ map (λ who. Some who) shelf
        → IsBegun (map P.who plugins.old.items) shelf (R.state roster.old).kept (R.state roster.new) }
    ensures sound { IsSound (R.state roster.new) (R.room roster.new) }
    ensures seats { length (R.state roster.new).seats ≡ length plugins.old.items }
    ensures places { (R.state roster.new).places ≡ (R.state roster.old).places }
    ensures none { plugins.new.items ≡ [] }
{
    seat_all(roster, plugins);
    begin_all(roster, alloc, view);
}

/// Makes room in the lists of a roster for so many plugins that are included, with their first and last lines, and so
/// many on the shelf. `Err` comes where a growth was refused. What the lists hold stays.
fn make_room<S: Drop, P: Drop>(
    slots: &mut Vec<S>,
    shelf: &mut Vec<P>,
    names: &mut Vec<Name>,
    lines: &mut Vec<TraceLine>,
    start: usize,
    shelved: usize,
) -> Result<(), AllocError>
    requires { start < 2 ^ 32 }
    ensures slots { OnOk result (start ≤ vec_capacity slots.new - vec_len slots.new) }
    ensures shelf { OnOk result (vec_len shelf.new + shelved ≤ vec_capacity shelf.new) }
    ensures names { OnOk result (start ≤ vec_capacity names.new - vec_len names.new) }
    ensures lines { OnOk result (6 * start ≤ vec_capacity lines.new - vec_len lines.new) }
    ensures stays { (slots.new.items ≡ slots.old.items) × (shelf.new.items ≡ shelf.old.items)
        × (names.new.items ≡ names.old.items) × (lines.new.items ≡ lines.old.items) }
{
    let Ok(()) = slots.reserve(start) else {
        return Err(AllocError);
    };
    let Ok(()) = shelf.reserve(shelved) else {
        return Err(AllocError);
    };
    let Ok(()) = names.reserve(start) else {
        return Err(AllocError);
    };
    lines.reserve(6 * start)
}

impl Roster {
    /// A roster where no plugin is included, those of a shelf stand on its own, and there is room for so many to come
    /// and for their first and last lines. Where it is refused, the shelf has its plugins.
    fn empty(
        alloc: Global,
        start: usize,
        shelf: &mut Vec<AnyPlugin>,
        kept: bool,
    ) -> Result<Roster, AllocError>
        requires { start < 2 ^ 32 }
        ensures seats { IfOk result (λ roster. (⟦<Roster as Seated>⟧.state roster).seats ≡ []) }
        ensures places { IfOk result (λ roster. (⟦<Roster as Seated>⟧.state roster).places
            ≡ map (λ who. Some who) (map ⟦<AnyPlugin as Tells>⟧.who shelf.old.items)) }
        ensures unnamed { IfOk result (λ roster. (⟦<Roster as Seated>⟧.state roster).names ≡ []) }
        ensures lines { IfOk result (λ roster. (⟦<Roster as Seated>⟧.state roster).lines ≡ []) }
        ensures kept { IfOk result (λ roster. (⟦<Roster as Seated>⟧.state roster).kept ≡ kept) }
        ensures spare { IfOk result (λ roster. start ≤ ⟦<Roster as Seats<AnyPlugin>>⟧.spare roster) }
        ensures room { IfOk result (λ roster. 6 * start ≤ (⟦<Roster as Seated>⟧.room roster).lines) }
        ensures unranked { IfOk result (λ roster. (⟦<Roster as Seated>⟧.room roster).rankings ≡ no_rankings) }
        ensures none { OnOk result (shelf.new.items ≡ []) }
        ensures err { OnErr result (shelf.new.items ≡ shelf.old.items) }
    {
        let mut slots = Vec::new(alloc);
        let mut places = Vec::new(alloc);
        let mut names = Vec::new(alloc);
        let mut lines = Vec::new(alloc);
        let Ok(()) = make_room(
            &mut slots,
            &mut places,
            &mut names,
            &mut lines,
            start,
            shelf.len(),
        ) else {
            return Err(AllocError);
        };
        shelve(shelf, &mut places);
        Ok(Roster {
            slots,
            shelf: places,
            names,
            kept,
            lines,
            rankings: Rankings::none(),
            boxes: PhantomData,
        })
    }

    /// Moves the plugins of a kit in: those of its start are included, in their order, and set up. All room is taken
    /// first, in the kit for `close` too; where it is refused, nobody was called and the kit has its plugins.
    pub fn start(
        alloc: Global,
        kit: &mut Kit,
        kept: bool,
        view: &View<'_>,
    ) -> Result<Roster, AllocError>
        requires { length kit.old.start.items + length kit.old.shelf.items < 2 ^ 32 }
        ensures begun { IfOk result (λ roster. IsBegun (map ⟦<AnyPlugin as Tells>⟧.who kit.old.start.items)
            (map ⟦<AnyPlugin as Tells>⟧.who kit.old.shelf.items) kept (⟦<Roster as Seated>⟧.state roster)) }
        ensures sound { IfOk result (λ roster. IsSound (⟦<Roster as Seated>⟧.state roster)
            (⟦<Roster as Seated>⟧.room roster)) }
        ensures room { OnOk result (vec_len kit.new.spent + (length kit.old.start.items + length kit.old.shelf.items)
            ≤ vec_capacity kit.new.spent) }
        ensures plugins { IfOk result (λ roster. length (⟦<Roster as Seated>⟧.state roster).seats
            + held_count (⟦<Roster as Seated>⟧.state roster).places
            ≡ length kit.old.start.items + length kit.old.shelf.items) }
        ensures moved { OnOk result ((kit.new.start.items ≡ []) × (kit.new.shelf.items ≡ [])) }
        ensures spent { kit.new.spent.items ≡ kit.old.spent.items }
        ensures err { OnErr result ((kit.new.start.items ≡ kit.old.start.items)
            × (kit.new.shelf.items ≡ kit.old.shelf.items)) }
    {
        let start = kit.start.len();
        let Ok(()) = kit.spent.reserve(start + kit.shelf.len()) else {
            return Err(AllocError);
        };
        let Ok(mut roster) = Roster::empty(alloc, start, &mut kit.shelf, kept) else {
            return Err(AllocError);
        };
        admit(&mut roster, alloc, &mut kit.start, view);
        Ok(roster)
    }
}
