//! The region in work, and the way to it: the nodes from the root down to the one that was entered last. The next node
//! is reached from the nearest node that its way shares with this one.
ghost use Rattle.std.specs.Prelude.{ℕ, ◌≡◌, ◌<◌, [], ◌∷◌, length, true, IfOk, MatchOption, MatchResult};
ghost use Rattle.slab.specs.Slab.{ContainsKey};
ghost use Rattle.cip_problem.specs.Box.{sides_at};
ghost use Rattle.cip_domain.specs.Changes.{side_change};
ghost use Rattle.cip_domain.specs.Domain.{region_of, tightening, KeepsMarks};
ghost use Rattle.cip_domain.specs.Narrowing.{ArePlainPast};
ghost use Rattle.cip_tree.specs.Notes.{noted};
ghost use Rattle.cip_tree.specs.Slots.{Slots, AreSoundSlots};
ghost use Rattle.cip_tree.specs.Tightening.{region_after};
ghost use Rattle.cip_tree.specs.Walks.{last_stop, AreNarrowed, EndsAt, EndsThere, IsParent, IsDescent, Climbs, IsWalked, StaysWalked, GoesBack, StepsDown, Descends, Enters};

use crate::kept::Kept;
use crate::notes::Note;
use crate::origins::Origin;
use cip_domain::{Change, Checkpoint, DomainStore, Frac, Region, Side, Tightened};
use slab::Slab;
use std::alloc::{AllocError, Global};
use std::marker::Model;

/// A node on the way, and the mark at which the region in work is that of the node before its own work.
#[derive(Clone, Copy)]
pub(crate) struct Stop {
    pub(crate) number: u64,
    pub(crate) mark: Checkpoint,
}

/// The region in work with its earlier states, and the way to it.
#[derive(Drop)]
pub(crate) struct Walk {
    domain: DomainStore,
    stops: Vec<Stop>,
}

impl Model for Walk {
    ghost use Rattle.cip_tree.specs.Walks.{Way, way_code, AreRising, AreHeld};

    ghost Value = { Way };

    ghost coded = { way_code };

    ghost view = { λ w. record { domain = w.domain; stops = w.stops.items } };

    ghost invariant = { λ w. AreRising w.stops.items × AreHeld w.domain w.stops.items };
}

/// The places from a node up to one, that one left out, and where that is kept.
#[derive(Drop)]
struct Climb {
    places: Vec<usize>,
    top: usize,
}

/// How a node is reached from its parent: its number, what the parent's own work noted, and by which split it was
/// given.
#[derive(Clone, Copy)]
struct Descent<'a> {
    number: u64,
    notes: &'a [Note],
    origin: &'a Origin,
}

/// How the node at a place is reached from its parent; `None` where none is kept there, or it is a root.
fn way_down(kept: &Slab<Kept>, place: usize) -> Option<Descent<'_>>
    requires { AreSoundSlots kept.now.slots }
    ensures { MatchOption result ((parent : ℕ) → ¬ IsParent kept.now.slots place parent)
        (λ d. IsDescent kept.now.slots place d.number d.notes.now d.origin.now) }
{
    let Some(slot) = kept.get(place) else {
        return None;
    };
    let Some(origin) = &slot.origin else {
        return None;
    };
    let Some(above) = kept.get(origin.parent()) else {
        return None;
    };
    Some(Descent {
        number: slot.number,
        notes: above.notes.as_slice(),
        origin,
    })
}

/// Makes the changes of notes, the oldest first; whether a point can meet them. The region at each mark so far stays.
/// `Err` comes where memory was refused.
fn narrow_by(domain: &mut DomainStore, notes: &[Note]) -> Result<bool, AllocError>
    ensures narrowed { ArePlainPast (region_of domain.old)
        → IfOk result (AreNarrowed (region_of domain.old) (region_of domain.new) (noted notes.now)) }
    ensures marks { KeepsMarks domain.old domain.new }
{
    for note in notes {
        let change = Change::of_side(note.col, note.side, note.value);
        if !domain.narrow(change)? {
            return Ok(false);
        }
    }
    Ok(true)
}

/// Makes the changes of notes, the oldest first, and then another one; whether a point can meet them. The region at
/// each mark so far stays. `Err` comes where memory was refused.
fn narrow_more(domain: &mut DomainStore, notes: &[Note], change: Change) -> Result<bool, AllocError>
    ensures narrowed { ArePlainPast (region_of domain.old)
        → IfOk result (AreNarrowed (region_of domain.old) (region_of domain.new) (change ∷ noted notes.now)) }
    ensures marks { KeepsMarks domain.old domain.new }
{
    if narrow_by(domain, notes)? {
        domain.narrow(change)
    } else {
        Ok(false)
    }
}

impl Walk {
    /// No way yet: the region in work is this one.
    pub(crate) fn new(alloc: Global, root: Region) -> Walk
        ensures { result ≡ record {
          domain = record { box = root.box; choices = root.choices; before = []; spare = 0 };
          stops = [];
        } }
    {
        Walk {
            domain: DomainStore::new(alloc, root),
            stops: Vec::new(alloc),
        }
    }

    /// The region in work with its earlier states.
    pub(crate) fn domain(&self) -> &DomainStore
        ensures { result.now ≡ self.now.domain }
    {
        &self.domain
    }

    /// The last node on the way.
    fn last(&self) -> Option<Stop>
        ensures { result ≡ last_stop self.now.stops }
    {
        self.stops.last().copied()
    }

    /// Forgets the nodes on the way with greater numbers than this; whether the last of those that are left has it.
    fn turn_back(&mut self, number: u64) -> bool
        ensures domain { self.new.domain ≡ self.old.domain }
        ensures walked { (slots : Slots) → StaysWalked slots self.old self.new }
        ensures ends { result ≡ true → EndsAt self.new.stops number }
    {
        while let Some(stop) = self.last() {
            if stop.number <= number {
                return stop.number == number;
            }
            let count = self.stops.len();
            self.stops.truncate(count - 1);
        }
        false
    }

    /// The place of a node's parent, where the way doesn't pass the node itself; later nodes on the way are forgotten.
    /// The way begins anew at a root that it doesn't pass. `Err` comes where a growth was refused.
    fn parent_past(&mut self, kept: &Slab<Kept>, place: usize) -> Result<Option<usize>, AllocError>
        requires kept { AreSoundSlots kept.now.slots }
        requires slot { ContainsKey kept.now place }
        ensures domain { self.new.domain ≡ self.old.domain }
        ensures walked { StaysWalked kept.now.slots self.old self.new }
        ensures next { IfOk result (λ next. MatchOption next (EndsThere kept.now.slots self.new.stops place)
            (IsParent kept.now.slots place)) }
    {
        let Some(slot) = kept.get(place) else {
            return Ok(None);
        };
        if self.turn_back(slot.number) {
            return Ok(None);
        }
        match &slot.origin {
            None => {
                self.stops.clear();
                let number = slot.number;
                let mark = Checkpoint::start();
                self.stops.push(Stop { number, mark })?;
                Ok(None)
            }
            Some(origin) => Ok(Some(origin.parent())),
        }
    }

    /// Climbs from a node to the nearest one on the way, and forgets the nodes on the way below that. `Err` comes where
    /// memory was refused.
    fn climb(&mut self, alloc: Global, kept: &Slab<Kept>, place: usize) -> Result<Climb, AllocError>
        requires kept { AreSoundSlots kept.now.slots }
        requires slot { ContainsKey kept.now place }
        ensures domain { self.new.domain ≡ self.old.domain }
        ensures walked { StaysWalked kept.now.slots self.old self.new }
        ensures climbs { IfOk result (λ climb. Climbs kept.now.slots place climb.places.items climb.top) }
        ensures ends { IfOk result (λ climb. EndsThere kept.now.slots self.new.stops climb.top) }
    {
        let mut places = Vec::new(alloc);
        let mut top = place;
        while let Some(parent) = self.parent_past(kept, top)? {
            places.push(top)?;
            top = parent;
        }
        Ok(Climb { places, top })
    }

    /// Makes the region in work that of the last node on the way.
    fn go_back(&mut self)
        ensures { GoesBack self.old self.new }
    {
        if let Some(stop) = self.last() {
            self.domain.undo_to(stop.mark);
        }
    }

    /// Goes from a node's parent to the node below a root: makes the parent's own changes, and the one that gave the
    /// node; whether a point can meet them. `Err` comes where memory was refused.
    fn step_down(
        &mut self,
        kept: &Slab<Kept>,
        root: &Region,
        place: usize,
    ) -> Result<bool, AllocError>
        requires kept { AreSoundSlots kept.now.slots }
        ensures { StepsDown root.now kept.now.slots self.old self.new place result }
    {
        let Some(below) = way_down(kept, place) else {
            return Ok(true);
        };
        let change = below.origin.change(root.choices());
        if !narrow_more(&mut self.domain, below.notes, change)? {
            return Ok(false);
        }
        let mark = self.domain.mark();
        self.stops.push(Stop {
            number: below.number,
            mark,
        })?;
        Ok(true)
    }

    /// Goes down to a node by these places, the last one first; whether its box may have a point. `Err` comes where
    /// memory was refused.
    fn descend(
        &mut self,
        kept: &Slab<Kept>,
        root: &Region,
        places: Vec<usize>,
    ) -> Result<bool, AllocError>
        requires kept { AreSoundSlots kept.now.slots }
        ensures { Descends root.now kept.now.slots self.old self.new places.items result }
    {
        let mut places = places;
        while let Some(place) = places.pop() {
            if !self.step_down(kept, root, place)? {
                return Ok(false);
            }
        }
        Ok(true)
    }

    /// Makes a value a side of a column of the region in work, with room of its own, if that is stronger and leaves the
    /// box a value there. `Err` comes where memory was refused.
    pub(crate) fn tighten(
        &mut self,
        col: u32,
        side: Side,
        value: Frac,
    ) -> Result<Tightened, AllocError>
        requires column { col < length self.old.domain.box }
        ensures outcome { IfOk result (λ answer. answer ≡ tightening (sides_at self.old.domain.box col) side value) }
        ensures region { MatchResult result
            (λ answer. region_of self.new.domain
            ≡ region_after answer (region_of self.old.domain) (side_change col side value))
            (λ _. region_of self.new.domain ≡ region_of self.old.domain) }
        ensures walked { (slots : Slots) → StaysWalked slots self.old self.new }
    {
        self.domain.reserve(1)?;
        Ok(self.domain.tighten(col, side, value))
    }

    /// Goes to a node, and makes the changes of its own work; whether its box may have a point. `Err` comes where
    /// memory was refused.
    pub(crate) fn enter(
        &mut self,
        alloc: Global,
        kept: &Slab<Kept>,
        root: &Region,
        place: usize,
        notes: &[Note],
    ) -> Result<bool, AllocError>
        requires kept { AreSoundSlots kept.now.slots }
        requires slot { ContainsKey kept.now place }
        ensures walked { (ids : ℕ) → IsWalked root.now kept.now.slots ids self.old
            → IsWalked root.now kept.now.slots ids self.new }
        ensures entered { Enters root.now kept.now.slots self.old place notes.now self.new result }
    {
        let Climb { places, top: _ } = self.climb(alloc, kept, place)?;
        self.go_back();
        if !self.descend(kept, root, places)? {
            return Ok(false);
        }
        narrow_by(&mut self.domain, notes)
    }
}
