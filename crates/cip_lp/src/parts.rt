//! Where the tokens of a line have ended, whatever follows.
ghost use Rattle.std.specs.Prelude.{◌≡◌, option_map};
ghost use Rattle.cip_rational.specs.Numeral as number;
ghost use Rattle.cip_text_rules.specs.LpTokens.{line_pieces};
ghost use Rattle.cip_text_rules.specs.LpParts as parts;
ghost use Rattle.cip_lp.specs.LpKinds.{meaning_shown};

use crate::lengths::is_name_byte;
use crate::pieces::{Piece, Pieces, is_blank};
use crate::words::{WordMeaning, word_meaning};

/// Whether a byte is the mark of an exponent.
fn is_exponent_mark(byte: u8) -> bool
    ensures { result ≡ number.is_exponent_mark byte }
{
    byte == b'e' || byte == b'E'
}

/// Whether a byte is a sign.
fn is_sign(byte: u8) -> bool
    ensures { result ≡ number.is_sign byte }
{
    byte == b'+' || byte == b'-'
}

/// Whether a byte is `<`, `=` or `>`.
fn is_relation_mark(byte: u8) -> bool
    ensures { result ≡ parts.is_relation_mark byte }
{
    byte == b'<' || byte == b'=' || byte == b'>'
}

/// Whether a byte may go on with what the byte before it belongs to.
fn joins(last: u8, byte: u8) -> bool
    ensures { result ≡ parts.joins last byte }
{
    is_name_byte(byte)
        || (is_exponent_mark(last) && is_sign(byte))
        || (is_relation_mark(last) && is_relation_mark(byte))
}

/// Whether a token has ended between these two bytes.
pub fn ends_before(last: u8, byte: u8) -> bool
    ensures { result ≡ parts.ends_before last byte }
{
    !(is_blank(last) || joins(last, byte))
}

/// Whether there is no piece, or a word alone.
fn is_short(pieces: Pieces<'_>) -> bool
    ensures { result ≡ parts.is_short (line_pieces pieces.entry.rest.now) }
{
    let mut ahead = pieces;
    match ahead.next_piece() {
        None => true,
        Some(Piece::Word(_)) => ahead.is_over(),
        Some(_) => false,
    }
}

/// Whether what a word in front is hangs on what follows these pieces.
fn hangs_on(meaning: Option<WordMeaning>, pieces: Pieces<'_>) -> bool
    ensures { result ≡ parts.hangs_on (option_map meaning_shown meaning) (line_pieces pieces.entry.rest.now) }
{
    match meaning {
        None | Some(WordMeaning::Free) | Some(WordMeaning::Infinity) => false,
        Some(WordMeaning::Subject) | Some(WordMeaning::Such) => is_short(pieces),
        Some(WordMeaning::Opens(_)) | Some(WordMeaning::Outside) => pieces.is_over(),
    }
}

/// Whether what the first token of a line is hangs on what follows these bytes.
pub fn hangs(bytes: &[u8]) -> bool
    ensures { result ≡ parts.hangs (line_pieces bytes.now) }
{
    let mut pieces = Pieces { rest: bytes };
    match pieces.next_piece() {
        None => true,
        Some(Piece::Word(word)) => hangs_on(word_meaning(word), pieces),
        Some(_) => false,
    }
}
