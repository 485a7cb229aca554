//! Names and their numbers.
ghost use Rattle.std.specs.Prelude.{◌≡◌, ℕ, ◌+◌, ◌<◌, ◌++◌, ◌∷◌, ◌↔◌, [], List, Some, None, IsTrue, length, vec_len, vec_capacity, slice_get, IfSome, OnOk, OnErr, MatchResult};
ghost use Rattle.cip_problem.specs.Names.{number_of};
ghost use Rattle.cip_model.specs.Keys.{AreRising};

use crate::name_hints::{hinted, piece, put_hint};
use crate::name_order::Order;
use std::alloc::{AllocError, Global};
use std::marker::Model;

/// Distinct names; the number of a name is its place, from 0. The names stand one behind another in a list of bytes, of
/// which `ends` has the place behind each. A name is sought by hints, and where these have it not in the order of
/// names, so that no choice of names makes the search long.
#[derive(Drop)]
pub struct Names {
    alloc: Global,
    bytes: Vec<u8>,
    ends: Vec<u32>,
    order: Order,
    hints: Vec<u32>,
}

impl Model for Names {
    ghost use Rattle.std.specs.Prelude.{ℕ, List};
    ghost use Rattle.cip_problem.specs.Codes.{names_code};

    ghost Value = { List (List ℕ) };

    ghost coded = { names_code };

    ghost use Rattle.cip_model.specs.Keys.{names_of, AreOrdered};

    ghost view = { names_of };

    ghost invariant = { AreOrdered };
}

/// Writes a name behind the others, with room for the place behind it, which is answered. `Err` comes where a growth
/// was refused, or the names would have more bytes than `u32::MAX`, and leaves names and ends as they were.
fn written(
    alloc: Global,
    bytes: &mut Vec<u8>,
    ends: &mut Vec<u32>,
    hints: &mut Vec<u32>,
    name: &[u8],
) -> Result<u32, AllocError>
    requires { AreRising 0 ends.old.items (length bytes.old.items) }
    ensures ends { ends.new.items ≡ ends.old.items }
    ensures written { MatchResult result
        (λ end. (bytes.new.items ≡ bytes.old.items ++ name.now) × (end ≡ vec_len bytes.old + length name.now)
        × (vec_len ends.new < vec_capacity ends.new))
        (λ _. bytes.new.items ≡ bytes.old.items) }
{
    let end = match bytes.len().checked_add(name.len()) {
        Some(end) if end <= u32::MAX as usize => end as u32,
        _ => return Err(AllocError),
    };
    put_hint(alloc, hints, bytes.as_slice(), ends.as_slice(), name)?;
    ends.reserve(1)?;
    match bytes.extend_from_slice(name) {
        Ok(()) => Ok(end),
        Err(_) => Err(AllocError),
    }
}

impl Names {
    ghost use Rattle.cip_problem.specs.NamesOnce.{StandOnce};

    /// No name yet.
    pub fn new(alloc: Global) -> Names
        ensures { result ≡ [] }
    {
        Names {
            alloc,
            bytes: Vec::new(alloc),
            ends: Vec::new(alloc),
            order: Order::new(alloc),
            hints: Vec::new(alloc),
        }
    }

    /// How many names there are.
    pub fn len(&self) -> usize
        ensures { result ≡ length self.now }
    {
        self.ends.len()
    }

    /// Whether there is no name.
    pub fn is_empty(&self) -> bool
        ensures { IsTrue result ↔ (self.now ≡ []) }
    {
        self.len() == 0
    }

    /// The number of a name, from 0, or `None` where it is not there.
    pub fn find(&self, name: &[u8]) -> Option<usize>
        ensures number { result ≡ number_of self.now name.now }
        ensures within { IfSome result (λ number. number < length self.now) }
    {
        let hints = self.hints.as_slice();
        match hinted(hints, self.bytes.as_slice(), self.ends.as_slice(), name) {
            Some(number) => Some(number),
            None => self.order.get(name),
        }
    }

    /// The name of this number, which is below their number.
    pub fn name(&self, number: usize) -> &[u8]
        requires { number < length self.now }
        ensures { slice_get self.now number ≡ Some result.now }
    {
        piece(self.bytes.as_slice(), self.ends.as_slice(), number)
    }

    /// No name stands twice. Nothing is done.
    pub fn stand_once(&self)
        ensures { StandOnce self.now }
    {
        let _ = &self.ends;
    }

    /// Puts a name that is not there yet at the end. `Err` comes where a growth was refused, or the names would have
    /// more bytes than `u32::MAX`, and changes nothing.
    pub fn add(&mut self, name: Vec<u8>) -> Result<(), AllocError>
        requires { number_of self.old name.items ≡ None }
        ensures ok { OnOk result (self.new ≡ self.old ++ name.items ∷ []) }
        ensures err { OnErr result (self.new ≡ self.old) }
    {
        let start = self.bytes.len();
        let number = self.ends.len();
        let (bytes, ends) = (&mut self.bytes, &mut self.ends);
        let Ok(end) = written(self.alloc, bytes, ends, &mut self.hints, name.as_slice()) else {
            return Err(AllocError);
        };
        if let Err(error) = self.order.put(name, number) {
            self.bytes.truncate(start);
            return Err(error);
        }
        self.ends.push_reserved(end);
        Ok(())
    }
}
