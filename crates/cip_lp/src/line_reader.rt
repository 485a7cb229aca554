//! Reading the tokens of a text, one after another.
ghost use Rattle.std.specs.Prelude.{◌≡◌, ◌∷◌, ℕ, false, IfOk, MatchOption};
ghost use Rattle.cip_text_rules.specs.LineStream.{Going};
ghost use Rattle.cip_text.specs.PieceStands.{progress_after};
ghost use Rattle.cip_text_rules.specs.LpOutcome as text;
ghost use Rattle.cip_text_rules.specs.LpOutcome.{LpContext, lp_reading};
ghost use Rattle.cip_text_rules.specs.LpBytes.{tokens_read};
ghost use Rattle.cip_lp.specs.LpLines.{token_shown, tokens_left};
ghost use Rattle.cip_lp.specs.LpEvents.{IsLpKind};
ghost use Rattle.cip_lp.specs.LinesRead.{stage_of, AreOver};

use crate::places::{Place, Stage};
use crate::{Amount, Limit, LineTokens, LpDraft, LpPart, Program, Relation, Statements, Token};
use cip_frac::Frac;
use std::alloc::{AllocError, Global};

/// What was read of the tokens of a text. Behind End none is looked at.
#[derive(Drop)]
pub(crate) struct LineReader {
    pub(crate) statements: Statements,
    pub(crate) ended: bool,
}

/// Whether a token is End.
fn is_end(token: Token<'_>) -> bool
    ensures { (context : LpContext) → result ≡ text.is_end context (token_shown token.entry) }
{
    match token {
        Token::Opening(LpPart::End) => true,
        _ => false,
    }
}

impl LineReader {
    /// Before the first token.
    pub(crate) fn new(alloc: Global) -> LineReader
        ensures { stage_of result ≡ lp_reading.start }
    {
        let zero = Amount {
            value: Frac::zero(),
        };
        let place = Place {
            stage: Stage::Start,
            name: Vec::new(alloc),
            minus: false,
            amount: zero,
            given: false,
            first: zero,
            first_relation: Relation::EqualTo,
            relation: Relation::EqualTo,
            limit: Limit {
                value: None,
                minus: false,
            },
        };
        LineReader {
            statements: Statements {
                draft: LpDraft::new(alloc),
                part: LpPart::NoPart,
                bounds: false,
                generals: false,
                binaries: false,
                constant: false,
                place,
            },
            ended: false,
        }
    }

    /// The next token of a line, unless the text has ended.
    fn next_of<'a>(&self, tokens: &mut LineTokens<'a>) -> Option<Token<'a>>
        ensures { MatchOption result (AreOver (stage_of self.now) (tokens_left tokens.old))
            (λ token. (self.now.ended ≡ false)
            × (tokens_left tokens.old ≡ token_shown token ∷ tokens_left tokens.new)) }
    {
        if self.ended {
            return None;
        }
        tokens.next_token()
    }

    /// Reads these tokens, and says the kind of their first fault, if there is one.
    pub(crate) fn take_tokens(&mut self, line: LineTokens<'_>) -> Result<Option<u32>, AllocError>
        ensures read { IfOk result (λ kind. (number : ℕ)
            → tokens_read number (Going (stage_of self.old)) (tokens_left line.entry)
            ≡ progress_after number kind (stage_of self.new)) }
        ensures kinds { IfOk result IsLpKind }
    {
        let mut tokens = line;
        while let Some(token) = self.next_of(&mut tokens) {
            let kind = self.statements.take(token)?;
            if kind.is_some() {
                return Ok(kind);
            }
            self.ended = is_end(token);
        }
        Ok(None)
    }

    /// The program of the tokens.
    pub(crate) fn into_program(self) -> Result<Program, AllocError>
        ensures { IfOk result (λ program. program ≡ lp_reading.result (stage_of self)) }
    {
        let LineReader { statements, .. } = self;
        statements.into_program()
    }
}
