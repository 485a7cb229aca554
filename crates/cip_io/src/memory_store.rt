//! Texts in memory, of which chosen calls fail.
ghost use Rattle.std.specs.Prelude.{◌≡◌, ◌<◌, ◌≤◌, [], ◌∷◌, ◌++◌, min, length, drop, OnOk, OnErr, IfOk, Some, is_ok, is_err};
ghost use Rattle.cip_io.specs.Texts.{held, held_or_empty};
ghost use Rattle.cip_io.specs.Store.{Comes};
ghost use Rattle.cip_io.specs.States.{new_store, with_text, is_due, can_choose, after_fault, after_call};

use crate::shelf::Shelf;
use crate::{Failed, Store};
use std::alloc::{AllocError, Global};
use std::marker::Model;

/// Texts in memory. It pulls at most a greatest piece at a time. Calls of `choose` and `pull` are counted together
/// from 1, and those whose numbers were given to `fail_at` fail. A name that isn't there fails too.
#[derive(Drop)]
pub struct MemoryStore {
    shelf: Shelf,
    failing: Vec<u64>,
    calls: u64,
    faults: u64,
}

impl Model for MemoryStore {
    ghost use Rattle.cip_io.specs.States.{StoreState};

    ghost Value = { StoreState };

    ghost view = { λ s. record { texts = s.shelf; failing = s.failing.items; calls = s.calls; faults = s.faults } };
}

impl MemoryStore {
    /// No text yet, and no call that fails. One pull gives at most `greatest_piece` bytes.
    pub fn new(alloc: Global, greatest_piece: usize) -> Self
        requires { 0 < greatest_piece }
        ensures { result ≡ new_store greatest_piece }
    {
        MemoryStore {
            shelf: Shelf::new(alloc, greatest_piece),
            failing: Vec::new(alloc),
            calls: 0,
            faults: 0,
        }
    }

    /// Adds a text under a name. It takes the place of an older one of that name, but what is left of the current text
    /// stays. An `Err`, where memory is refused, changes nothing.
    pub fn add(&mut self, name: &str, bytes: &[u8]) -> Result<(), AllocError>
        ensures ok { OnOk result (self.new ≡ record self.old { texts = with_text self.old.texts name.now bytes.now }) }
        ensures err { OnErr result (self.new ≡ self.old) }
    {
        self.shelf.add(name, bytes)
    }

    /// Lets the call of this number fail. An `Err`, where memory is refused, changes nothing.
    pub fn fail_at(&mut self, call: u64) -> Result<(), AllocError>
        ensures ok { OnOk result (self.new ≡ record self.old { failing = self.old.failing ++ call ∷ [] }) }
        ensures err { OnErr result (self.new ≡ self.old) }
    {
        self.failing.push(call)?;
        Ok(())
    }
}

impl Store for MemoryStore {
    ghost tells = { λ s. record {
      holds = λ name. held s.texts.files name;
      left = Some s.texts.left;
      faults = s.faults;
    } };

    fn choose(&mut self, name: &str) -> Result<(), Failed>
        ensures when { is_ok result ≡ can_choose self.old name.now }
        ensures ok { OnOk result (self.new ≡ after_call self.old (held_or_empty self.old.texts.files name.now)) }
        ensures err { OnErr result (self.new ≡ after_fault self.old) }
        ensures later { self.old.faults ≤ self.new.faults }
    {
        self.calls = self.calls.saturating_add(1);
        if self.failing.contains(&self.calls) || !self.shelf.choose(name) {
            self.faults = self.faults.saturating_add(1);
            return Err(Failed);
        }
        Ok(())
    }

    fn pull(&mut self, into: &mut [u8]) -> Result<usize, Failed>
        requires { 0 < length into.old }
        ensures when { is_err result ≡ is_due self.old }
        ensures count { let room = min self.old.texts.greatest_piece (length into.old) in
            IfOk result (λ n. n ≡ min room (length self.old.texts.left)) }
        ensures comes { IfOk result (λ n. Comes self.old.texts.left into.old into.new n) }
        ensures ok { IfOk result (λ n. self.new ≡ after_call self.old (drop n self.old.texts.left)) }
        ensures err { OnErr result (self.new ≡ after_fault self.old) }
        ensures later { self.old.faults ≤ self.new.faults }
    {
        self.calls = self.calls.saturating_add(1);
        if self.failing.contains(&self.calls) {
            self.faults = self.faults.saturating_add(1);
            return Err(Failed);
        }
        Ok(self.shelf.pull(into))
    }
}
