//! Bytes on their way to a sink.
ghost use Rattle.std.specs.Prelude.{◌≡◌, ◌++◌, [], OnOk, flat_map};
ghost use Rattle.std.specs.Bool.{OnTrue, OnFalse};
ghost use Rattle.cip_io.specs.Faults.{CountsFaults};
ghost use Rattle.cip_report.specs.Writing.{Writes};

use cip_io::{Failed, Sink, push_all};
use std::marker::Model;

/// The room of the buffer.
const ROOM: usize = 4_096;

/// Bytes that are not handed on yet.
#[derive(Drop)]
pub(crate) struct Buffer {
    bytes: [u8; 4096],
    used: usize,
}

impl Model for Buffer {
    ghost use Rattle.std.specs.Prelude.{ℕ, ◌≤◌, List, take};

    ghost Value = { List ℕ };

    ghost view = { λ buffer. take buffer.used buffer.bytes };

    ghost invariant = { λ buffer. buffer.used ≤ 4096 };
}

impl Buffer {
    /// No byte yet.
    pub(crate) fn new() -> Buffer
        ensures { result ≡ [] }
    {
        Buffer {
            bytes: [0; 4096],
            used: 0,
        }
    }

    /// Puts bytes at the end, where there is room for them.
    fn put(&mut self, bytes: &[u8]) -> bool
        ensures put { OnTrue result (self.new ≡ self.old ++ bytes.now) }
        ensures full { OnFalse result (self.new ≡ self.old) }
    {
        if bytes.len() > ROOM - self.used {
            return false;
        }
        let end = self.used + bytes.len();
        self.bytes[self.used..end].copy_from_slice(bytes);
        self.used = end;
        true
    }

    /// Hands on the bytes held.
    pub(crate) fn flush<K: Sink>(&mut self, out: &mut K) -> Result<(), Failed>
        ensures taken { Writes result (K.tells out.old) (K.tells out.new) self.old self.new }
        ensures empty { OnOk result (self.new ≡ []) }
        ensures faults { CountsFaults result (K.tells out.old).faults (K.tells out.new).faults }
    {
        push_all(out, &self.bytes[..self.used])?;
        self.used = 0;
        Ok(())
    }

    /// Hands on the bytes held and then these, which are held where they fit.
    pub(crate) fn write<K: Sink>(&mut self, out: &mut K, bytes: &[u8]) -> Result<(), Failed>
        ensures taken { Writes result (K.tells out.old) (K.tells out.new) (self.old ++ bytes.now) self.new }
        ensures faults { CountsFaults result (K.tells out.old).faults (K.tells out.new).faults }
    {
        if self.put(bytes) {
            return Ok(());
        }
        self.flush(out)?;
        if self.put(bytes) {
            return Ok(());
        }
        push_all(out, bytes)
    }

    /// Writes texts, one behind the other.
    pub(crate) fn write_all<K: Sink>(&mut self, out: &mut K, texts: &[&[u8]]) -> Result<(), Failed>
        ensures taken { Writes result (K.tells out.old) (K.tells out.new)
            (self.old ++ flat_map (λ text. text.now) texts.now) self.new }
        ensures faults { CountsFaults result (K.tells out.old).faults (K.tells out.new).faults }
    {
        for text in texts {
            self.write(out, text)?;
        }
        Ok(())
    }
}
