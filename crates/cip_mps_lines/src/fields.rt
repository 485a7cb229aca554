//! The first fields of a line.
ghost use Rattle.std.specs.Prelude.{◌≡◌, ◌≤◌, ◌<◌, ◌+◌, ◌++◌, ◌∷◌, [], take};
ghost use Rattle.cip_text.specs.TextLines.{fields_left};

use cip_text::Fields;

/// The most fields that a line may have are five; of a line with more the first six are looked at.
const MOST: usize = 6;

/// The first fields of a line: six at most.
#[derive(Clone, Copy)]
pub(crate) struct Words<'a> {
    pub(crate) words: [&'a [u8]; 6],
    pub(crate) count: usize,
    ghost counted: { count ≤ 6 },
}

impl<'a> Words<'a> {
    ghost use Rattle.cip_mps_lines.specs.FirstWords.{texts, words_of};

    /// The first six of the fields, or all where they are fewer.
    pub(crate) fn first_of(fields: &Fields<'a>) -> Words<'a>
        ensures { words_of result ≡ take 6 (fields_left fields.now) }
    {
        let mut left = *fields;
        let words: [&[u8]; 6] = [&[]; 6];
        let mut kept = Words { words, count: 0 };
        while kept.count < MOST {
            let Some(word) = left.next_field() else {
                return kept;
            };
            kept.push(word);
        }
        kept
    }

    /// Puts a word at the end.
    fn push(&mut self, word: &'a [u8])
        requires { self.old.count < 6 }
        ensures words { words_of self.new ≡ words_of self.old ++ word.now ∷ [] }
        ensures counted { self.new.count ≡ self.old.count + 1 }
    {
        self.words[self.count] = word;
        self.count += 1;
    }

    /// The fields, seen as a slice.
    pub(crate) fn as_slice(&self) -> &[&'a [u8]]
        ensures { texts result.now ≡ words_of self.now }
    {
        &self.words[..self.count]
    }
}
