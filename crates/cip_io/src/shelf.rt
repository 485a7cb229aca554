//! Names with their texts, and a place in one of them.
ghost use Rattle.std.specs.Prelude.{◌≡◌, ◌<◌, ◌≤◌, ◌+◌, ◌^◌, [], min, length, drop, OnOk, OnErr, MatchOption, MatchBool, Some, None};
ghost use Rattle.cip_io.specs.Texts.{held, text_at};
ghost use Rattle.cip_io.specs.Shelf.{named};
ghost use Rattle.cip_io.specs.Store.{Comes};
ghost use Rattle.cip_io.specs.States.{no_texts, with_text, with_left};

use std::alloc::{AllocError, Global};
use std::marker::Model;

/// A text under its name.
#[derive(Drop)]
struct File {
    name: String,
    text: Vec<u8>,
}

/// The newest file stands first. The current text is that of the file `chosen`, and empty past the last file.
#[derive(Drop)]
pub(crate) struct Shelf {
    alloc: Global,
    files: Vec<File>,
    chosen: usize,
    at: usize,
    greatest_piece: usize,
}

impl Model for Shelf {
    ghost use Rattle.std.specs.Prelude.{◌≤◌, ◌<◌, length, drop};
    ghost use Rattle.cip_io.specs.States.{Texts};
    ghost use Rattle.cip_io.specs.Texts.{text_at};
    ghost use Rattle.cip_io.specs.Shelf.{named};

    ghost Value = { Texts };

    ghost view = { λ s. record {
      files = named s.files.items;
      left = drop s.at (text_at (named s.files.items) s.chosen);
      greatest_piece = s.greatest_piece;
    } };

    ghost invariant = { λ s. (s.chosen ≤ length s.files.items)
        × (s.at ≤ length (text_at (named s.files.items) s.chosen))
        × (0 < s.greatest_piece) };
}

impl Shelf {
    /// No text yet. One pull gives at most `greatest_piece` bytes.
    pub(crate) fn new(alloc: Global, greatest_piece: usize) -> Self
        requires { 0 < greatest_piece }
        ensures { result ≡ no_texts greatest_piece }
    {
        Shelf {
            alloc,
            files: Vec::new(alloc),
            chosen: 0,
            at: 0,
            greatest_piece,
        }
    }

    /// Adds a text in front of the others; an `Err` changes nothing.
    pub(crate) fn add(&mut self, name: &str, text: &[u8]) -> Result<(), AllocError>
        ensures ok { OnOk result (self.new ≡ with_text self.old name.now text.now) }
        ensures err { OnErr result (self.new ≡ self.old) }
    {
        let Ok(text) = text.to_vec(self.alloc) else {
            return Err(AllocError);
        };
        let Ok(name) = String::from_str(self.alloc, name) else {
            return Err(AllocError);
        };
        match self.files.insert(0, File { name, text }) {
            Ok(()) => {
                self.chosen += 1;
                Ok(())
            }
            Err(refused) => {
                drop(refused);
                Err(AllocError)
            }
        }
    }

    /// Makes the text of a name the current one; false where the name isn't there, and then nothing changes.
    pub(crate) fn choose(&mut self, name: &str) -> bool
        ensures { MatchBool result
            ((held self.old.files name.now ≡ Some self.new.left) × (self.new ≡ with_left self.old self.new.left))
            ((held self.old.files name.now ≡ None) × (self.new ≡ self.old)) }
    {
        match find_file(&self.files, name) {
            Some(index) => {
                self.chosen = index;
                self.at = 0;
                true
            }
            None => false,
        }
    }

    /// Makes the current text empty.
    pub(crate) fn choose_none(&mut self)
        ensures { self.new ≡ with_left self.old [] }
    {
        self.chosen = self.files.len();
        self.at = 0;
    }

    /// Gives the next bytes of the current text, and says how many.
    pub(crate) fn pull(&mut self, into: &mut [u8]) -> usize
        requires { 0 < length into.old }
        ensures count { result ≡ min (min self.old.greatest_piece (length into.old)) (length self.old.left) }
        ensures state { self.new ≡ with_left self.old (drop result self.old.left) }
        ensures comes { Comes self.old.left into.old into.new result }
    {
        let count = give(
            rest_of(&self.files, self.chosen, self.at),
            self.greatest_piece,
            into,
        );
        self.at += count;
        count
    }
}

/// The first file of this name.
fn find_file(files: &[File], name: &str) -> Option<usize>
    ensures { MatchOption result
        (held (named files.now) name.now ≡ None)
        (λ i. (i < length files.now) × (held (named files.now) name.now ≡ Some (text_at (named files.now) i))) }
{
    for (i, file) in files.iter().enumerate() {
        if file.name.as_str() == name {
            return Some(i);
        }
    }
    None
}

/// The text of a file from a place on; past the last file it is empty.
fn rest_of(files: &[File], chosen: usize, at: usize) -> &[u8]
    requires { at ≤ length (text_at (named files.now) chosen) }
    ensures value { result.now ≡ drop at (text_at (named files.now) chosen) }
    ensures fits { at + length result.now < 2 ^ 64 }
{
    if chosen < files.len() {
        &files[chosen].text[at..]
    } else {
        &[]
    }
}

/// Copies the next bytes, no more than a piece has.
fn give(rest: &[u8], greatest_piece: usize, into: &mut [u8]) -> usize
    requires piece { 0 < greatest_piece }
    requires room { 0 < length into.old }
    ensures count { result ≡ min (min greatest_piece (length into.old)) (length rest.now) }
    ensures comes { Comes rest.now into.old into.new result }
{
    let count = greatest_piece.min(into.len()).min(rest.len());
    into[..count].copy_from_slice(&rest[..count]);
    count
}
