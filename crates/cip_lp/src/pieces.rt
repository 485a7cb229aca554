//! A line is cut into pieces.
ghost use Rattle.std.specs.Prelude.{◌≡◌, ◌+◌, ◌-◌, ◌∷◌, [], length, drop, false, MatchOption, if◌then◌else◌};
ghost use Rattle.cip_text_rules.specs.Lines as lines;
ghost use Rattle.cip_text_rules.specs.LpWords as text;
ghost use Rattle.cip_text_rules.specs.LpTokens.{line_pieces, has_colon};
ghost use Rattle.cip_text_rules.specs.LpParts.{is_over};
ghost use Rattle.cip_lp.specs.LpPieces.{piece_shown, begins_blank, begins_nothing};

use crate::lengths::{begins_name, begins_number, name_length, number_length};
use crate::words::Relation;

/// A piece of a line.
#[derive(Clone, Copy)]
pub(crate) enum Piece<'a> {
    Word(&'a [u8]),
    Number(&'a [u8]),
    Sign { minus: bool },
    Colon,
    Relates(Relation),
    Nothing,
}

/// The pieces of a line, from one of them on.
#[derive(Clone, Copy)]
pub(crate) struct Pieces<'a> {
    pub(crate) rest: &'a [u8],
}

/// Blank, tab and carriage return.
pub(crate) fn is_blank(byte: u8) -> bool
    ensures { result ≡ lines.is_blank byte }
{
    byte == b' ' || byte == b'\t' || byte == b'\r'
}

/// Whether a byte stands first.
fn begins_with(wanted: u8, bytes: &[u8]) -> bool
    ensures { result ≡ text.begins_with wanted bytes.now }
{
    match bytes {
        [] => false,
        [first, ..] => *first == wanted,
    }
}

/// A piece of one byte, or of two, and the byte behind it.
fn mark_piece(byte: u8, behind: &[u8]) -> Piece<'static>
    ensures { piece_shown result ≡ text.mark_piece byte behind.now }
{
    match byte {
        b'+' => Piece::Sign { minus: false },
        b'-' => Piece::Sign { minus: true },
        b':' => Piece::Colon,
        b'<' => Piece::Relates(Relation::AtMost),
        b'>' => Piece::Relates(Relation::AtLeast),
        b'=' if begins_with(b'<', behind) => Piece::Relates(Relation::AtMost),
        b'=' if begins_with(b'>', behind) => Piece::Relates(Relation::AtLeast),
        b'=' => Piece::Relates(Relation::EqualTo),
        _ => Piece::Nothing,
    }
}

/// Whether a relation has two bytes.
fn is_double(byte: u8, behind: &[u8]) -> bool
    ensures { result ≡ text.is_double byte behind.now }
{
    ((byte == b'<' || byte == b'>') && begins_with(b'=', behind))
        || (byte == b'=' && (begins_with(b'<', behind) || begins_with(b'>', behind)))
}

/// The bytes behind a mark of one byte or two.
fn behind_mark(byte: u8, behind: &[u8]) -> &[u8]
    ensures { result.now ≡ drop (if text.is_double byte behind.now then 1 else 0) behind.now }
{
    match behind {
        [_, rest @ ..] if is_double(byte, behind) => rest,
        _ => behind,
    }
}

/// A text that no blank begins; nothing where it begins a comment.
#[tactic(auto, using(cip_text_rules::proofs::LpPieceLaws::comment_cut))]
fn without_comment(bytes: &[u8]) -> &[u8]
    requires { begins_blank bytes.now ≡ false }
    ensures same { line_pieces result.now ≡ line_pieces bytes.now }
    ensures starts { begins_nothing result.now ≡ false }
{
    match bytes {
        [first, ..] if *first == b'\\' => &[],
        _ => bytes,
    }
}

/// What stands from the first byte on that is no blank; nothing where it begins a comment.
fn without_blanks(bytes: &[u8]) -> &[u8]
    ensures same { line_pieces result.now ≡ line_pieces bytes.now }
    ensures starts { begins_nothing result.now ≡ false }
{
    let mut rest = bytes;
    while let [first, others @ ..] = rest {
        if !is_blank(*first) {
            return without_comment(rest);
        }
        rest = others;
    }
    rest
}

/// The number that stands first, if there is one, and what stands behind it.
fn cut_number<'a>(all: &'a [u8], behind: &'a [u8]) -> (Piece<'a>, &'a [u8])
    requires { length all.now ≡ length behind.now + 1 }
    ensures piece { piece_shown result.0 ≡ text.number_piece (text.number_length all.now) all.now }
    ensures rest { result.1.now ≡ drop (text.number_length all.now - 1) behind.now }
{
    let length = number_length(all);
    if length > 0 {
        (Piece::Number(&all[..length]), &behind[length - 1..])
    } else {
        (Piece::Nothing, behind)
    }
}

/// The piece that begins with this byte, and what stands behind it.
fn cut_first<'a>(byte: u8, behind: &'a [u8], all: &'a [u8]) -> (Piece<'a>, &'a [u8])
    requires { all.now ≡ byte ∷ behind.now }
    ensures piece { piece_shown result.0 ≡ text.first_piece byte behind.now }
    ensures rest { result.1.now ≡ drop (text.first_rest byte behind.now) behind.now }
{
    if begins_name(byte) {
        let length = name_length(behind);
        (Piece::Word(&all[..length + 1]), &behind[length..])
    } else if begins_number(byte) {
        cut_number(all, behind)
    } else {
        (mark_piece(byte, behind), behind_mark(byte, behind))
    }
}

impl<'a> Pieces<'a> {
    /// The next piece; none where the line has no more, and then the pieces stay as they are.
    pub(crate) fn next_piece(&mut self) -> Option<Piece<'a>>
        ensures { MatchOption result
            ((line_pieces self.old.rest.now ≡ []) × (line_pieces self.new.rest.now ≡ []))
            (λ piece. line_pieces self.old.rest.now ≡ piece_shown piece ∷ line_pieces self.new.rest.now) }
    {
        let rest = without_blanks(self.rest);
        match rest {
            [] => {
                self.rest = rest;
                None
            }
            [first, behind @ ..] => {
                let (piece, left) = cut_first(*first, behind, rest);
                self.rest = left;
                Some(piece)
            }
        }
    }

    /// Whether no piece comes next.
    pub(crate) fn is_over(&self) -> bool
        ensures { result ≡ is_over (line_pieces self.now.rest.now) }
    {
        let mut ahead = *self;
        match ahead.next_piece() {
            None => true,
            Some(_) => false,
        }
    }

    /// Whether `:` comes next.
    pub(crate) fn has_colon(&self) -> bool
        ensures { result ≡ has_colon (line_pieces self.now.rest.now) }
    {
        let mut ahead = *self;
        match ahead.next_piece() {
            Some(Piece::Colon) => true,
            _ => false,
        }
    }
}
