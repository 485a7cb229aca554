//! Texts in memory, where no call fails.
ghost use Rattle.std.specs.Prelude.{◌≡◌, ◌<◌, min, length, drop, OnOk, OnErr, IsOk, IfOk, Some};
ghost use Rattle.cip_io.specs.Texts.{held_or_empty};
ghost use Rattle.cip_io.specs.Store.{Comes};
ghost use Rattle.cip_io.specs.States.{no_texts, with_text, with_left};

use crate::shelf::Shelf;
use crate::{Failed, Store};
use std::alloc::{AllocError, Global};
use std::marker::Model;

/// Texts in memory. It pulls at most a greatest piece at a time, and never fails. A name that isn't there has an
/// empty text.
#[derive(Drop)]
pub struct SoundStore {
    shelf: Shelf,
}

impl Model for SoundStore {
    ghost use Rattle.cip_io.specs.States.{Texts};

    ghost Value = { Texts };

    ghost view = { λ s. s.shelf };
}

impl SoundStore {
    /// No text yet. One pull gives at most `greatest_piece` bytes.
    pub fn new(alloc: Global, greatest_piece: usize) -> Self
        requires { 0 < greatest_piece }
        ensures { result ≡ no_texts greatest_piece }
    {
        SoundStore {
            shelf: Shelf::new(alloc, greatest_piece),
        }
    }

    /// Adds a text under a name. It takes the place of an older one of that name, but what is left of the current text
    /// stays. An `Err`, where memory is refused, changes nothing.
    pub fn add(&mut self, name: &str, bytes: &[u8]) -> Result<(), AllocError>
        ensures ok { OnOk result (self.new ≡ with_text self.old name.now bytes.now) }
        ensures err { OnErr result (self.new ≡ self.old) }
    {
        self.shelf.add(name, bytes)
    }
}

impl Store for SoundStore {
    ghost tells = { λ s. record {
      holds = λ name. Some (held_or_empty s.files name);
      left = Some s.left;
      faults = 0;
    } };

    fn choose(&mut self, name: &str) -> Result<(), Failed>
        ensures sound { IsOk result }
        ensures state { self.new ≡ with_left self.old (held_or_empty self.old.files name.now) }
    {
        if !self.shelf.choose(name) {
            self.shelf.choose_none();
        }
        Ok(())
    }

    fn pull(&mut self, into: &mut [u8]) -> Result<usize, Failed>
        requires { 0 < length into.old }
        ensures sound { IsOk result }
        ensures count { let room = min self.old.greatest_piece (length into.old) in
            IfOk result (λ n. n ≡ min room (length self.old.left)) }
        ensures comes { IfOk result (λ n. Comes self.old.left into.old into.new n) }
        ensures state { IfOk result (λ n. self.new ≡ with_left self.old (drop n self.old.left)) }
    {
        Ok(self.shelf.pull(into))
    }
}
