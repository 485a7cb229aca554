//! The tokens of a line.
ghost use Rattle.std.specs.Prelude.{◌≡◌, ◌∷◌, [], false, MatchOption, option_map, if◌then◌else◌};
ghost use lib.Chars.{codes};
ghost use Rattle.cip_text_rules.specs.LpWords as text;
ghost use Rattle.cip_text_rules.specs.LpTokens as tokens;
ghost use Rattle.cip_text_rules.specs.LpTokens.{line_pieces, token_of, tokens_with, front_tokens, plain_word};
ghost use Rattle.cip_lp.specs.LpKinds.{meaning_shown};
ghost use Rattle.cip_lp.specs.LpPieces.{piece_shown};
ghost use Rattle.cip_lp.specs.LpLines.{token_shown, tokens_left};

use crate::pieces::{Piece, Pieces};
use crate::words::{LpPart, Relation, WordMeaning, is_second, word_meaning};

/// A token of a line.
#[derive(Clone, Copy)]
pub enum Token<'a> {
    /// A section word.
    Opening(LpPart),
    /// The word of a section that this profile hasn't got.
    OutsideSection,
    /// A word that is neither section nor name.
    Reserved,
    /// `free`.
    Free,
    /// Infinity, by this word.
    Infinite(&'a [u8]),
    /// A number without a sign.
    Number(&'a [u8]),
    /// A name.
    Name(&'a [u8]),
    /// `+` or `-`.
    Sign {
        /// It is `-`.
        minus: bool,
    },
    /// `:`.
    Colon,
    /// A relation.
    Relates(Relation),
    /// A byte that begins no token.
    Bad,
}

/// The tokens of a line, from one of them on.
#[derive(Clone, Copy)]
pub struct LineTokens<'a> {
    pub(crate) pieces: Pieces<'a>,
    /// No token was handed out.
    pub(crate) front: bool,
}

/// A word that isn't a section.
fn plain_token(meaning: Option<WordMeaning>, word: &[u8]) -> Token<'_>
    ensures { token_shown result ≡ plain_word (option_map meaning_shown meaning) word.now }
{
    match meaning {
        None => Token::Name(word),
        Some(WordMeaning::Free) => Token::Free,
        Some(WordMeaning::Infinity) => Token::Infinite(word),
        Some(_) => Token::Reserved,
    }
}

/// A piece that opens no section.
fn piece_token(piece: Piece<'_>) -> Token<'_>
    ensures { token_shown result ≡ token_of (piece_shown piece.entry) }
{
    match piece {
        Piece::Word(word) => plain_token(word_meaning(word), word),
        Piece::Number(number) => Token::Number(number),
        Piece::Sign { minus } => Token::Sign { minus },
        Piece::Colon => Token::Colon,
        Piece::Relates(relation) => Token::Relates(relation),
        Piece::Nothing => Token::Bad,
    }
}

impl<'a> LineTokens<'a> {
    /// The tokens of bytes of a line, in its front or not. They are without line feed.
    pub fn of(front: bool, bytes: &'a [u8]) -> LineTokens<'a>
        ensures { tokens_left result ≡ tokens.tokens_from front bytes.now }
    {
        LineTokens {
            pieces: Pieces { rest: bytes },
            front,
        }
    }

    /// The token of the first of two words that open the section of rows together.
    fn second_token(&mut self, such: bool) -> Token<'a>
        requires { self.old.front ≡ false }
        ensures { tokens_with (if such then codes "that" else codes "to") text.Constraints
            (line_pieces self.old.pieces.rest.now) ≡ token_shown result ∷ tokens_left self.new }
    {
        let mut ahead = self.pieces;
        match ahead.next_piece() {
            Some(Piece::Word(word)) if is_second(word, such) && !ahead.has_colon() => {
                self.pieces = ahead;
                Token::Opening(LpPart::Constraints)
            }
            _ => Token::Reserved,
        }
    }

    /// The token of a word in front.
    fn front_word(&mut self, word: &'a [u8]) -> Token<'a>
        requires { self.old.front ≡ false }
        ensures { front_tokens (text.word_meaning word.now) word.now (line_pieces self.old.pieces.rest.now)
            ≡ token_shown result ∷ tokens_left self.new }
    {
        match word_meaning(word) {
            Some(WordMeaning::Subject) => self.second_token(false),
            Some(WordMeaning::Such) => self.second_token(true),
            Some(WordMeaning::Opens(part)) => {
                if self.pieces.has_colon() {
                    Token::Reserved
                } else {
                    Token::Opening(part)
                }
            }
            Some(WordMeaning::Outside) => {
                if self.pieces.has_colon() {
                    Token::Reserved
                } else {
                    Token::OutsideSection
                }
            }
            meaning => plain_token(meaning, word),
        }
    }

    /// The next token; none where the line has no more, and then none comes later.
    pub fn next_token(&mut self) -> Option<Token<'a>>
        ensures { MatchOption result ((tokens_left self.old ≡ []) × (tokens_left self.new ≡ []))
            (λ token. tokens_left self.old ≡ token_shown token ∷ tokens_left self.new) }
    {
        if self.front {
            self.front = false;
            return match self.pieces.next_piece() {
                None => None,
                Some(Piece::Word(word)) => Some(self.front_word(word)),
                Some(piece) => Some(piece_token(piece)),
            };
        }
        match self.pieces.next_piece() {
            None => None,
            Some(piece) => Some(piece_token(piece)),
        }
    }
}
