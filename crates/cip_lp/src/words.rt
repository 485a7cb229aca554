//! The words of LP texts that are never names, and relations.
ghost use lib.Chars.{codes};
ghost use Rattle.std.specs.Prelude.{◌≡◌, map, option_map, if◌then◌else◌};
ghost use Rattle.std.specs.Str.{bytes_eq, str_to_ascii_lowercase};
ghost use Rattle.cip_text_rules.specs.MpsWords.{meaning_in};
ghost use Rattle.cip_text_rules.specs.LpWords as text;
ghost use Rattle.cip_lp.specs.LpKinds.{meaning_shown, word_shown};

/// A section of a text.
#[derive(Clone, Copy)]
pub enum LpPart {
    /// What stands before the first section.
    NoPart,
    /// The objective, to be least.
    Minimize,
    /// The objective, to be greatest.
    Maximize,
    /// The rows.
    Constraints,
    /// The bounds.
    Bounds,
    /// The columns that are whole.
    Generals,
    /// The columns that are whole, from 0 to 1.
    Binaries,
    /// The end.
    End,
}

/// A relation between a form and a value.
#[derive(Clone, Copy, PartialEq, Eq)]
pub enum Relation {
    /// `<`, `<=` or `=<`.
    AtMost,
    /// `=`.
    EqualTo,
    /// `>`, `>=` or `=>`.
    AtLeast,
}

/// What a word means that is never a name.
#[derive(Clone, Copy)]
pub(crate) enum WordMeaning {
    /// It opens a section.
    Opens(LpPart),
    /// It opens the section of rows, with `to` behind it.
    Subject,
    /// It opens the section of rows, with `that` behind it.
    Such,
    /// A section that this profile hasn't got.
    Outside,
    /// `free`.
    Free,
    /// Infinity.
    Infinity,
}

/// The words that are never names, in small letters, and what they mean.
const WORDS: [(&[u8], WordMeaning); 27] = [
    (b"minimize", WordMeaning::Opens(LpPart::Minimize)),
    (b"minimum", WordMeaning::Opens(LpPart::Minimize)),
    (b"min", WordMeaning::Opens(LpPart::Minimize)),
    (b"maximize", WordMeaning::Opens(LpPart::Maximize)),
    (b"maximum", WordMeaning::Opens(LpPart::Maximize)),
    (b"max", WordMeaning::Opens(LpPart::Maximize)),
    (b"subject", WordMeaning::Subject),
    (b"such", WordMeaning::Such),
    (b"st", WordMeaning::Opens(LpPart::Constraints)),
    (b"s.t.", WordMeaning::Opens(LpPart::Constraints)),
    (b"bounds", WordMeaning::Opens(LpPart::Bounds)),
    (b"bound", WordMeaning::Opens(LpPart::Bounds)),
    (b"generals", WordMeaning::Opens(LpPart::Generals)),
    (b"general", WordMeaning::Opens(LpPart::Generals)),
    (b"gen", WordMeaning::Opens(LpPart::Generals)),
    (b"binaries", WordMeaning::Opens(LpPart::Binaries)),
    (b"binary", WordMeaning::Opens(LpPart::Binaries)),
    (b"bin", WordMeaning::Opens(LpPart::Binaries)),
    (b"end", WordMeaning::Opens(LpPart::End)),
    (b"semi", WordMeaning::Outside),
    (b"semis", WordMeaning::Outside),
    (b"sos", WordMeaning::Outside),
    (b"sos1", WordMeaning::Outside),
    (b"sos2", WordMeaning::Outside),
    (b"free", WordMeaning::Free),
    (b"inf", WordMeaning::Infinity),
    (b"infinity", WordMeaning::Infinity),
];

/// What a word means by a list of words; their letters, and its own, may be large or small.
fn meaning_in(words: &[(&[u8], WordMeaning)], word: &[u8]) -> Option<WordMeaning>
    ensures { option_map meaning_shown result
        ≡ meaning_in (map (λ known. word_shown known.0.now known.1) words.now) (str_to_ascii_lowercase word.now) }
{
    for known in words {
        if word.eq_ignore_ascii_case(known.0) {
            return Some(known.1);
        }
    }
    None
}

/// What a word means that is never a name; its letters may be large or small.
pub(crate) fn word_meaning(word: &[u8]) -> Option<WordMeaning>
    ensures { option_map meaning_shown result ≡ text.word_meaning word.now }
{
    meaning_in(&WORDS, word)
}

/// Whether a word is `that`, or `to`; its letters may be large or small.
pub(crate) fn is_second(word: &[u8], such: bool) -> bool
    ensures { result ≡ bytes_eq (str_to_ascii_lowercase word.now) (if such then codes "that" else codes "to") }
{
    if such {
        word.eq_ignore_ascii_case(b"that")
    } else {
        word.eq_ignore_ascii_case(b"to")
    }
}
