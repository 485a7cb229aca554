//! What is kept of nodes: each has the change that made it and what its own work noted; the rest is its parent's.
ghost use Rattle.std.specs.Prelude.{◌≡◌, ◌+◌, IfSome, Some};
ghost use Rattle.slab.specs.Slab.{ContainsKey, HasRoomFor, slab_len};
ghost use Rattle.cip_tree.specs.Slots.{IsRestaged, IsParted, IsLowered, IsReleased, IsUsed, IsIdle, IsUnused, IsKeptBut, AreSoundSlots, open_slot};

use crate::notes::Note;
use crate::origins::Origin;
use slab::Slab;
use std::alloc::Global;
use std::marker::Model;

/// Where a node stands.
#[derive(Clone, Copy)]
pub(crate) enum Stage {
    /// It waits in the queue.
    Open,
    /// It is in work.
    Taken,
    /// It was put aside.
    Parked,
    /// It was split; nodes below it still need its changes.
    Ended,
}

/// What is kept of a node.
#[derive(Drop)]
pub(crate) struct Kept {
    // none of the root
    pub(crate) origin: Option<Origin>,
    pub(crate) number: u64,
    // what its own work changed, the oldest first; empty while the node is taken
    pub(crate) notes: Vec<Note>,
    // how many nodes have this one as parent
    pub(crate) below: usize,
    pub(crate) stage: Stage,
}

// a search keeps millions of them
const _: () = prove!(size_of::<Kept>() == 96);

impl Model for Kept {
    ghost use Rattle.cip_tree.specs.Slots.{Slot, slot_code};

    ghost Value = { Slot };

    ghost coded = { slot_code };

    ghost view = { λ k. record {
      number = k.number;
      origin = k.origin;
      notes = k.notes.items;
      below = k.below;
      stage = k.stage;
    } };
}

/// An open node without changes of its own.
pub(crate) fn new_kept(alloc: Global, number: u64, origin: Option<Origin>) -> Kept
    ensures { result ≡ open_slot number origin }
{
    Kept {
        number,
        origin,
        notes: Vec::new(alloc),
        below: 0,
        stage: Stage::Open,
    }
}

/// Gives the node at a place other notes and another stage, and answers the notes that it had.
pub(crate) fn restage(
    kept: &mut Slab<Kept>,
    place: usize,
    notes: Vec<Note>,
    stage: Stage,
) -> Vec<Note>
    requires { ContainsKey kept.old place }
    ensures slots { IsRestaged kept.old.slots kept.new.slots place result.items notes.items stage }
    ensures len { slab_len kept.new ≡ slab_len kept.old }
    ensures capacity { kept.new.capacity ≡ kept.old.capacity }
{
    let was = kept.remove(place);
    let now = Kept {
        number: was.number,
        origin: was.origin,
        notes,
        below: was.below,
        stage,
    };
    kept.insert_reserved(now);
    was.notes
}

/// Lowers the number of nodes that have the one at a place as parent; whether none is left.
fn lower(kept: &mut Slab<Kept>, place: usize) -> bool
    requires { IsUsed kept.old.slots place }
    ensures slots { IsLowered kept.old.slots kept.new.slots place result }
    ensures len { slab_len kept.new ≡ slab_len kept.old }
    ensures capacity { kept.new.capacity ≡ kept.old.capacity }
{
    let was = kept.remove(place);
    let below = was.below - 1;
    let now = Kept {
        number: was.number,
        origin: was.origin,
        notes: was.notes,
        below,
        stage: was.stage,
    };
    kept.insert_reserved(now);
    below == 0
}

/// Lets go of a node that none has as parent, and answers the place of its parent where that is unused now.
fn let_go(kept: &mut Slab<Kept>, place: usize) -> Option<usize>
    requires idle { IsIdle kept.old.slots place }
    requires kept { IsKeptBut (Some place) kept.old.slots }
    ensures slots { IsReleased kept.old.slots kept.new.slots place }
    ensures next { IfSome result (IsUnused kept.new.slots) }
    ensures kept { IsKeptBut result kept.new.slots }
    ensures len { slab_len kept.new + 1 ≡ slab_len kept.old }
    ensures capacity { kept.new.capacity ≡ kept.old.capacity }
{
    let gone = kept.remove(place);
    let origin = gone.origin;
    let Some(origin) = origin else {
        return None;
    };
    let parent = origin.parent();
    if lower(kept, parent) {
        Some(parent)
    } else {
        None
    }
}

/// Lets go of a node that none has as parent, and of those that ended and that only it needed.
pub(crate) fn release(kept: &mut Slab<Kept>, place: usize)
    requires idle { IsIdle kept.old.slots place }
    requires kept { AreSoundSlots kept.old.slots }
    ensures slots { IsReleased kept.old.slots kept.new.slots place }
    ensures kept { AreSoundSlots kept.new.slots }
    ensures capacity { kept.new.capacity ≡ kept.old.capacity }
{
    let mut next = let_go(kept, place);
    while let Some(at) = next {
        next = let_go(kept, at);
    }
}

/// Ends a node by a split: gives it its notes, and places for its two halves, for which there is room.
pub(crate) fn part(
    kept: &mut Slab<Kept>,
    place: usize,
    notes: Vec<Note>,
    low: Kept,
    high: Kept,
) -> (usize, usize)
    requires slot { ContainsKey kept.old place }
    requires room { HasRoomFor kept.old 2 }
    ensures slots { IsParted kept.old.slots kept.new.slots place notes.items low high result.0 result.1 }
    ensures len { slab_len kept.new ≡ slab_len kept.old + 2 }
    ensures capacity { kept.new.capacity ≡ kept.old.capacity }
{
    let was = kept.remove(place);
    let now = Kept {
        number: was.number,
        origin: was.origin,
        notes,
        below: 2,
        stage: Stage::Ended,
    };
    kept.insert_reserved(now);
    let low_place = kept.insert_reserved(low);
    let high_place = kept.insert_reserved(high);
    (low_place, high_place)
}
