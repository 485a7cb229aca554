//! Names that stand once, and their numbers.

ghost use Rattle.std.specs.Prelude.{◌≡◌, ◌<◌, ◌++◌, ◌∷◌, [], false, Some, length, slice_get, IfSome, OnOk, OnErr};
ghost use Rattle.cip_text_rules.specs.MpsWords.{number_in, is_in};

use cip_model::Names;
use cip_text_rules::step_laws::numbers_are_of_names;
use std::alloc::{AllocError, Global};
use std::marker::Model;

/// Distinct names; the number of a name is its place, from 0.
#[derive(Drop)]
pub struct NameIndex {
    names: Names,
}

impl Model for NameIndex {
    ghost use Rattle.std.specs.Prelude.{ℕ, List};
    ghost use Rattle.cip_problem.specs.Codes.{names_code};
    ghost use Rattle.cip_mps_lines.specs.NamesApart.{AreApart};

    ghost Value = { List (List ℕ) };

    ghost coded = { names_code };

    ghost view = { λ index. index.names };

    ghost invariant = { λ index. AreApart index.names };
}

impl NameIndex {
    /// No name yet.
    pub fn new(alloc: Global) -> NameIndex
        ensures { result ≡ [] }
    {
        NameIndex {
            names: Names::new(alloc),
        }
    }

    /// The number of a name, if it is there.
    pub fn find(&self, name: &[u8]) -> Option<usize>
        ensures number { result ≡ number_in self.now name.now }
        ensures within { IfSome result (λ number. number < length self.now) }
    {
        numbers_are_of_names();
        self.names.find(name)
    }

    /// The number of a name, if it is there; this one is looked at first.
    pub fn find_near(&self, name: &[u8], number: usize) -> Option<usize>
        ensures number { result ≡ number_in self.now name.now }
        ensures within { IfSome result (λ number. number < length self.now) }
    {
        if number < self.names.len() {
            if self.names.name(number) == name {
                return Some(number);
            }
        }
        self.find(name)
    }

    /// The name of this number, which is below their number.
    pub fn name(&self, number: usize) -> &[u8]
        requires { number < length self.now }
        ensures name { slice_get self.now number ≡ Some result.now }
        ensures number { number_in self.now result.now ≡ Some number }
    {
        self.names.name(number)
    }

    /// Puts a name that isn't there yet at the end. `Err` comes where a growth was refused, and changes nothing.
    pub fn add(&mut self, name: Vec<u8>) -> Result<(), AllocError>
        requires { is_in self.old name.items ≡ false }
        ensures ok { OnOk result (self.new ≡ self.old ++ name.items ∷ []) }
        ensures err { OnErr result (self.new ≡ self.old) }
    {
        numbers_are_of_names();
        self.names.add(name)?;
        Ok(())
    }

    /// The names alone.
    pub fn into_names(self) -> Names
        ensures { result ≡ self }
    {
        let NameIndex { names } = self;
        names
    }
}
