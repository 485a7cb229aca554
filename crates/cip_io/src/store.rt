//! Named texts that are read in pieces.
ghost use Rattle.std.specs.Prelude.{◌≡◌, ◌<◌, length, MatchResult};
ghost use Rattle.cip_io.specs.Faults.{CountsFaults};
ghost use Rattle.cip_io.specs.Store.{StoreTells, Pulls};

use crate::Failed;

/// Named texts, of which one is the current text. Before the first `choose` the current text is empty.
pub trait Store {
    /// The text that a name has and what is left of the current text, where these are told, and how many faults there
    /// were. The count never falls.
    ghost tells: { Self → StoreTells };

    /// Makes the named text the current one, from its first byte. An `Err` changes nothing but the count.
    fn choose(&mut self, name: &str) -> Result<(), Failed>
        ensures left { MatchResult result
            (λ _. (tells self.new).left ≡ (tells self.old).holds name.now)
            (λ _. (tells self.new).left ≡ (tells self.old).left) }
        ensures holds { (tells self.new).holds ≡ (tells self.old).holds }
        ensures faults { CountsFaults result (tells self.old).faults (tells self.new).faults };

    /// Writes the next bytes of the current text to the front of the buffer, and says how many. 0 is the text's end,
    /// and comes only there. An `Err` changes nothing but the count and what the buffer contains.
    fn pull(&mut self, into: &mut [u8]) -> Result<usize, Failed>
        requires { 0 < length into.old }
        ensures left { MatchResult result
            (λ n. Pulls (tells self.old) (tells self.new) into.old into.new n)
            (λ _. (tells self.new).left ≡ (tells self.old).left) }
        ensures holds { (tells self.new).holds ≡ (tells self.old).holds }
        ensures faults { CountsFaults result (tells self.old).faults (tells self.new).faults };
}
