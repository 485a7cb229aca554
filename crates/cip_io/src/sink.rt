//! What bytes are written to, in pieces.
ghost use Rattle.std.specs.Prelude.{◌≡◌, ◌<◌, length, MatchResult};
ghost use Rattle.cip_io.specs.Faults.{CountsFaults};
ghost use Rattle.cip_io.specs.Sink.{SinkTells, TakesAll, Pushes, PushesPart};

use crate::Failed;

/// TakesAll bytes, in order.
pub trait Sink {
    /// The bytes taken so far, where they are told, and how many faults there were. The count never falls.
    ghost tells: { Self → SinkTells };

    /// Takes one or more bytes from the front of the piece, and says how many. An `Err` changes nothing but the count.
    fn push(&mut self, piece: &[u8]) -> Result<usize, Failed>
        requires { 0 < length piece.now }
        ensures taken { MatchResult result
            (λ n. Pushes (tells self.old) (tells self.new) piece.now n)
            (λ _. (tells self.new).taken ≡ (tells self.old).taken) }
        ensures faults { CountsFaults result (tells self.old).faults (tells self.new).faults };
}

/// Pushes a whole piece. After an `Err`, which comes with the first call of the sink that fails, a part of it is taken.
pub fn push_all<K: Sink>(out: &mut K, piece: &[u8]) -> Result<(), Failed>
    ensures taken { MatchResult result
        (λ _. TakesAll (K.tells out.old) (K.tells out.new) piece.now)
        (λ _. PushesPart (K.tells out.old) (K.tells out.new) piece.now) }
    ensures faults { CountsFaults result (K.tells out.old).faults (K.tells out.new).faults }
{
    let mut done = 0;
    while done < piece.len() {
        let count = out.push(&piece[done..])?;
        done += count;
    }
    Ok(())
}
