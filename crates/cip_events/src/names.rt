//! Names as a trace shows them.
ghost use Rattle.std.specs.Prelude.{◌≡◌};
ghost use Rattle.cip_events.specs.Names.{shown_byte, shown_name};

use std::marker::Model;

/// A name of at most 64 bytes. Contracts see it as the list of its bytes.
#[derive(Drop)]
pub struct Name {
    bytes: [u8; 64],
    length: usize,
}

impl Model for Name {
    ghost use Rattle.std.specs.Prelude.{ℕ, List, take, ◌≤◌};

    ghost Value = { List ℕ };

    ghost view = { λ n. take n.length n.bytes };

    ghost invariant = { λ n. n.length ≤ 64 };
}

/// A byte as it is shown: itself between `!` and `~`, else `?`.
fn shown(byte: u8) -> u8
    ensures { result ≡ shown_byte byte }
{
    if b'!' <= byte && byte <= b'~' {
        byte
    } else {
        b'?'
    }
}

impl Name {
    /// A text cut at 64 bytes, each byte outside `!` to `~` as `?`.
    pub fn of(text: &str) -> Name
        ensures { result ≡ shown_name text.now }
    {
        let source = text.as_bytes();
        let length = source.len().min(64);
        let mut bytes = [0; 64];
        for i in 0..length {
            bytes[i] = shown(source[i]);
        }
        Name { bytes, length }
    }

    /// The bytes of the name.
    pub fn as_bytes(&self) -> &[u8]
        ensures { result.now ≡ self.now }
    {
        &self.bytes[..self.length]
    }
}
