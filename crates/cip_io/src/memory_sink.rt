//! A sink in memory, with a fixed room.
ghost use Rattle.std.specs.Prelude.{◌≡◌, ◌<◌, ◌≤◌, ◌==◌, ◌+◌, ◌-◌, ◌++◌, min, length, take, IfOk, OnErr, Some, is_err};
ghost use Rattle.cip_io.specs.States.{new_sink, free_room, after_push, after_refusal};

use crate::{Failed, Sink};
use std::alloc::{AllocError, Global};
use std::marker::Model;

/// TakesAll as many bytes as its room, which is taken at the start. Where only a part fits, it takes that part, and
/// where nothing fits, it fails.
#[derive(Drop)]
pub struct MemorySink {
    bytes: Vec<u8>,
    used: usize,
    faults: u64,
}

impl Model for MemorySink {
    ghost use Rattle.std.specs.Prelude.{◌≤◌, length, take};
    ghost use Rattle.cip_io.specs.States.{SinkState};

    ghost Value = { SinkState };

    ghost view = { λ s. record { taken = take s.used s.bytes.items; room = length s.bytes.items; faults = s.faults } };

    ghost invariant = { λ s. s.used ≤ length s.bytes.items };
}

impl MemorySink {
    /// No byte yet, and room for so many bytes; an `Err` where memory is refused for them.
    pub fn new(alloc: Global, room: usize) -> Result<Self, AllocError>
        ensures { IfOk result (λ sink. sink ≡ new_sink room) }
    {
        Ok(MemorySink {
            bytes: vec![in alloc; 0; room]?,
            used: 0,
            faults: 0,
        })
    }

    /// The bytes taken so far.
    pub fn taken(&self) -> &[u8]
        ensures { result.now ≡ self.now.taken }
    {
        &self.bytes[..self.used]
    }
}

impl Sink for MemorySink {
    ghost tells = { λ s. record { taken = Some s.taken; faults = s.faults } };

    fn push(&mut self, piece: &[u8]) -> Result<usize, Failed>
        requires { 0 < length piece.now }
        ensures when { is_err result ≡ (free_room self.old == 0) }
        ensures count { IfOk result (λ n. n ≡ min (free_room self.old) (length piece.now)) }
        ensures ok { IfOk result (λ n. self.new ≡ after_push self.old (take n piece.now)) }
        ensures err { OnErr result (self.new ≡ after_refusal self.old) }
        ensures later { self.old.faults ≤ self.new.faults }
    {
        let count = fill(&mut self.bytes, self.used, piece);
        if count == 0 {
            self.faults = self.faults.saturating_add(1);
            return Err(Failed);
        }
        self.used += count;
        Ok(count)
    }
}

/// Copies the front of a piece behind the bytes in use, as much as there is room for, and says how much.
fn fill(bytes: &mut [u8], used: usize, piece: &[u8]) -> usize
    requires { used ≤ length bytes.old }
    ensures count { result ≡ min (length bytes.old - used) (length piece.now) }
    ensures len { length bytes.new ≡ length bytes.old }
    ensures bytes { take (used + result) bytes.new ≡ take used bytes.old ++ take result piece.now }
{
    let count = piece.len().min(bytes.len() - used);
    bytes[used..used + count].copy_from_slice(&piece[..count]);
    count
}
