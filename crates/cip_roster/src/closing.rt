//! How a roster ends.
ghost use Rattle.std.specs.Prelude.{◌≡◌, ◌+◌, ◌≤◌, [], All, false, length, map, vec_len, vec_capacity};
ghost use Rattle.cip_plugin.specs.Seats.{held_count, is_live};
ghost use Rattle.cip_plugin.specs.Steps.{Runs};
ghost use Rattle.cip_roster.specs.Turns.{IsSound};
ghost use Rattle.cip_roster.specs.Closed.{IsClosed, all_end, back};

use crate::moves::{return_seated, return_shelved};
use crate::rosters::{Roster, Seated};
use crate::steps::Steps;
use crate::turns::end;
use cip_events::Trace;
use cip_plugin::{AnyPlugin, Kit, Tells};
use std::alloc::Global;
use std::mem;

/// Closes each live plugin, by number.
fn end_all<R: Steps>(roster: &mut R)
    requires sound { IsSound (R.state roster.old) (R.room roster.old) }
    ensures run { Runs (R.state roster.old) (all_end 0 (R.state roster.old).seats) (R.state roster.new) }
    ensures gone { All (λ seat. is_live seat ≡ false) (R.state roster.new).seats }
    ensures places { (R.state roster.new).places ≡ (R.state roster.old).places }
    ensures seats { length (R.state roster.new).seats ≡ length (R.state roster.old).seats }
{
    for place in 0..roster.count() {
        match roster.live(place as u32) {
            Ok(()) => end(roster, place as u32),
            Err(_) => {}
        }
    }
}

impl Roster {
    /// Closes each live plugin, by number, and puts all plugins into the kit's `spent`, those that were included with
    /// their numbers, and then those of the shelf, uncalled.
    pub fn close(&mut self, kit: &mut Kit)
        requires sound { IsSound (⟦<Roster as Seated>⟧.state self.old) (⟦<Roster as Seated>⟧.room self.old) }
        requires room { vec_len kit.old.spent + (length (⟦<Roster as Seated>⟧.state self.old).seats
            + held_count (⟦<Roster as Seated>⟧.state self.old).places) ≤ vec_capacity kit.old.spent }
        ensures closed { IsClosed (⟦<Roster as Seated>⟧.state self.old) (⟦<Roster as Seated>⟧.state self.new)
            (map (λ s. back s.id (⟦<AnyPlugin as Tells>⟧.who s.plugin)) kit.old.spent.items)
            (map (λ s. back s.id (⟦<AnyPlugin as Tells>⟧.who s.plugin)) kit.new.spent.items) }
        ensures start { kit.new.start ≡ kit.old.start }
        ensures shelf { kit.new.shelf ≡ kit.old.shelf }
    {
        end_all(self);
        return_seated(&mut self.slots, &mut kit.spent);
        return_shelved(&mut self.shelf, &mut kit.spent);
    }

    /// Moves the lines out, with the names of the plugins: none is kept, and nothing else changes.
    pub fn take_trace(&mut self, alloc: Global) -> Trace
        ensures lines { result.lines.items ≡ (⟦<Roster as Seated>⟧.state self.old).lines }
        ensures names { result.names.items ≡ (⟦<Roster as Seated>⟧.state self.old).names }
        ensures rest { ⟦<Roster as Seated>⟧.state self.new
            ≡ record (⟦<Roster as Seated>⟧.state self.old) { names = []; lines = [] } }
    {
        Trace {
            names: mem::replace(&mut self.names, Vec::new(alloc)),
            lines: mem::replace(&mut self.lines, Vec::new(alloc)),
        }
    }
}
