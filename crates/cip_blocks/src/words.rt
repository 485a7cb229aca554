//! The words of a text of blocks.
ghost use Rattle.std.specs.Prelude.{◌≡◌, option_map};
ghost use Rattle.cip_text_rules.specs.MpsWords.{meaning_in};
ghost use Rattle.cip_text_rules.specs.BlockWords.{keywords, number_word};
ghost use Rattle.cip_blocks.specs.SmallNumbers.{small};
ghost use Rattle.cip_blocks.specs.Keywords.{keyword_shown};

/// One of the four words that are never names.
#[derive(Clone, Copy)]
pub(crate) enum Keyword {
    /// `PRESOLVED`.
    Presolved,
    /// `NBLOCKS`.
    BlockCount,
    /// `BLOCK`.
    Block,
    /// `MASTERCONSS`.
    Master,
}

/// Which of the four words this is, if it is one of them.
pub(crate) fn keyword_of(word: &[u8]) -> Option<Keyword>
    ensures { option_map keyword_shown result ≡ meaning_in keywords word.now }
{
    if word == b"PRESOLVED".as_slice() {
        Some(Keyword::Presolved)
    } else if word == b"NBLOCKS".as_slice() {
        Some(Keyword::BlockCount)
    } else if word == b"BLOCK".as_slice() {
        Some(Keyword::Block)
    } else if word == b"MASTERCONSS".as_slice() {
        Some(Keyword::Master)
    } else {
        None
    }
}

/// The number of a word of digits alone, where it is at most 4,096; there may be zeros in front.
pub(crate) fn block_number(word: &[u8]) -> Option<u32>
    ensures { result ≡ small (number_word word.now) }
{
    let mut value = 0;
    for byte in word {
        if !byte.is_ascii_digit() {
            return None;
        }
        let next = value * 10 + u32::from(byte.saturating_sub(b'0'));
        value = next.min(4_097);
    }
    if word.is_empty() || value > 4_096 {
        None
    } else {
        Some(value)
    }
}
