//! The order of names, in which a name is found however names were chosen. A name of few bytes stands there as one
//! number, so that it is compared at once.
ghost use Rattle.std.specs.Prelude.{◌≡◌, ℕ, List, None, Some, if◌then◌else◌, OnOk, OnErr};
ghost use Rattle.std.specs.Str.{bytes_eq};
ghost use Rattle.cip_model.specs.Keys.{key_of, number_in};

use std::alloc::{AllocError, Global};
use std::collections::BTreeMap;

/// Behind a number from here on no byte has room.
const FULL: u128 = 0x1_0000_0000_0000_0000_0000_0000_0000;

/// The numbers of names: of short ones by the numbers that have their bytes, and of others by themselves.
#[derive(Drop)]
pub(crate) struct Order {
    short: BTreeMap<u128, usize>,
    long: BTreeMap<Vec<u8>, usize>,
}

/// The number that has the bytes of a name, how many there are among it; none where these are over 15.
fn key_of(name: &[u8]) -> Option<u128>
    ensures { result ≡ key_of name.now }
{
    let count = name.len();
    if count >= 16 {
        return None;
    }
    let mut key = 0u128;
    for byte in name {
        if key >= FULL {
            return None;
        }
        key = key * 256 + u128::from(*byte);
    }
    Some(key * 16 + count as u128)
}

impl Order {
    /// No name yet.
    pub(crate) fn new(alloc: Global) -> Order
        ensures { (name : List ℕ) → number_in result name ≡ None }
    {
        Order {
            short: BTreeMap::new(alloc),
            long: BTreeMap::new(alloc),
        }
    }

    /// The number of a name, if it is there.
    pub(crate) fn get(&self, name: &[u8]) -> Option<usize>
        ensures { result ≡ number_in self.now name.now }
    {
        match key_of(name) {
            Some(key) => self.short.get(&key).copied(),
            None => self.long.get(name).copied(),
        }
    }

    /// Puts a new name with its number in. `Err` comes where a growth was refused, and changes nothing.
    pub(crate) fn put(&mut self, name: Vec<u8>, number: usize) -> Result<(), AllocError>
        requires { number_in self.old name.items ≡ None }
        ensures ok { OnOk result ((other : List ℕ) → number_in self.new other
            ≡ (if bytes_eq other name.items then Some number else number_in self.old other)) }
        ensures err { OnErr result ((other : List ℕ) → number_in self.new other ≡ number_in self.old other) }
    {
        match key_of(name.as_slice()) {
            Some(key) => {
                self.short.insert(key, number)?;
                Ok(())
            }
            None => {
                self.long.insert(name, number)?;
                Ok(())
            }
        }
    }
}
