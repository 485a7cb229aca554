//! The answers without figures.
ghost use Rattle.std.specs.Prelude.{◌≡◌, ◌+◌, ◌≤◌, ◌++◌, MatchResult, length, take};
ghost use Rattle.cip_io.specs.Faults.{CountsFaults};
ghost use Rattle.cip_io.specs.Sink.{TakesAll, PushesPart};
ghost use Rattle.cip_input.specs.Plain.{plain_text, plain_status};

use crate::refusals::FaultyText;
use cip_io::{Failed, Sink, push_all};
use itoa::Buffer;

/// An answer without figures.
#[derive(Clone, Copy)]
pub enum Plain {
    /// The words are not accepted.
    Usage,
    /// The store failed.
    ReadFault,
    /// A text is faulty.
    Refused(FaultyText),
    /// A growth was refused.
    NoMemory,
}

/// Copies bytes into the buffer at a place, and answers where they end.
fn put(buffer: &mut [u8; 128], at: usize, bytes: &[u8]) -> usize
    requires { at + length bytes.now ≤ 128 }
    ensures end { result ≡ at + length bytes.now }
    ensures text { take result buffer.new ≡ take at buffer.old ++ bytes.now }
{
    let end = at + bytes.len();
    buffer[at..end].copy_from_slice(bytes);
    end
}

impl Plain {
    /// Writes what is printed at the front of the buffer, and answers how many bytes it has.
    fn write_into(self, buffer: &mut [u8; 128]) -> usize
        ensures within { result ≤ 128 }
        ensures text { take result buffer.new ≡ plain_text self }
    {
        match self {
            Plain::Usage => put(buffer, 0, b"status usage\nend\n"),
            Plain::ReadFault => put(buffer, 0, b"status readfault\nend\n"),
            Plain::Refused(fault) => {
                let mut digits = Buffer::new();
                let end = put(buffer, 0, b"status refused\ntext ");
                let end = put(buffer, end, fault.text());
                let end = put(buffer, end, b"\nline ");
                let end = put(buffer, end, digits.format(fault.line()).as_bytes());
                let end = put(buffer, end, b"\nkind ");
                let end = put(buffer, end, fault.kind());
                put(buffer, end, b"\nend\n")
            }
            Plain::NoMemory => put(buffer, 0, b"status nomemory\nend\n"),
        }
    }

    /// The exit status.
    pub fn status(self) -> u8
        ensures { result ≡ plain_status self }
    {
        match self {
            Plain::Usage => 2,
            Plain::ReadFault => 3,
            Plain::Refused(_) => 4,
            Plain::NoMemory => 6,
        }
    }

    /// Writes the answer. After an `Err`, which comes with the first call of the sink that fails, a front part of its
    /// text is taken.
    pub fn tell<K: Sink>(self, out: &mut K) -> Result<(), Failed>
        ensures taken { MatchResult result
            (λ _. TakesAll (K.tells out.old) (K.tells out.new) (plain_text self))
            (λ _. PushesPart (K.tells out.old) (K.tells out.new) (plain_text self)) }
        ensures faults { CountsFaults result (K.tells out.old).faults (K.tells out.new).faults }
    {
        let mut text = [0u8; 128];
        let length = self.write_into(&mut text);
        push_all(out, &text[..length])
    }
}
