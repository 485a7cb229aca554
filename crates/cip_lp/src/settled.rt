//! What the tokens before a token say, now that it is known.
ghost use Rattle.std.specs.Prelude.{◌≡◌, None, true, IfOk};
ghost use Rattle.cip_text_rules.specs.LpPlaces as places;
ghost use Rattle.cip_text_rules.specs.LpGrammar as grammar;
ghost use Rattle.cip_text_rules.specs.LpGrammar.{settled, settled_cost, settled_row};
ghost use Rattle.cip_lp.specs.LpLines.{token_shown};
ghost use Rattle.cip_lp.specs.LpStages.{first_of, given_of, goes_on_with, where_of};
ghost use Rattle.cip_lp.specs.LpTaken.{AreTaken};

use crate::places::Stage;
use crate::statements::Statements;
use crate::{LpPart, Token, agree, is_equality, unit};
use std::alloc::AllocError;

/// Whether a token is `:`.
fn is_colon(token: Token<'_>) -> bool
    ensures { result ≡ grammar.is_colon (token_shown token.entry) }
{
    match token {
        Token::Colon => true,
        _ => false,
    }
}

impl Statements {
    /// Takes a number of the objective as its constant, unless it is that of a name.
    fn settle_cost_number(&mut self, token: Token<'_>) -> Option<u32>
        ensures { AreTaken self.old self.new
            (settled_cost (where_of self.old) (places.TermNumber (given_of self.old.place) self.old.place.amount)
            (token_shown token.entry)) result }
    {
        if self.constant {
            return None;
        }
        if let Token::Name(_) = token {
            return None;
        }
        self.draft.add_constant(&self.place.amount);
        self.constant = true;
        self.place.given = false;
        self.place.stage = Stage::AfterTerm;
        None
    }

    /// Takes the name in front of a row as that of a term, unless it is the row's.
    fn settle_row_name(&mut self, token: Token<'_>) -> Result<Option<u32>, AllocError>
        ensures { IfOk result (AreTaken self.old self.new
            (settled_row (where_of self.old) (places.FirstName self.old.place.name.items) (token_shown token.entry))) }
    {
        if is_colon(token) {
            return Ok(None);
        }
        let Ok(kind) = self.draft.begin_unnamed() else {
            return Err(AllocError);
        };
        if kind.is_some() {
            return Ok(kind);
        }
        let name = self.place.name.as_slice();
        let Ok(kind) = self.draft.add_term(&unit(false), name) else {
            return Err(AllocError);
        };
        self.place.given = false;
        self.place.stage = Stage::AfterTerm;
        Ok(kind)
    }

    /// Whether a token goes on with a row that begins with a value, a relation and a number.
    fn goes_on_with(&self, token: Token<'_>) -> bool
        ensures { result ≡ goes_on_with (first_of self.now.place) self.now.place.amount (token_shown token.entry) }
    {
        if !self.place.first.is_zero() {
            return true;
        }
        match token {
            Token::Name(_) => !is_equality(self.place.first_relation),
            Token::Relates(relation) => {
                self.place.amount.is_zero() && agree(self.place.first_relation, relation)
            }
            _ => false,
        }
    }

    /// Takes the name behind the number 0, a relation and a number as that of a term, unless it is the next row's.
    fn settle_second_name(&mut self, token: Token<'_>) -> Result<Option<u32>, AllocError>
        ensures { IfOk result (AreTaken self.old self.new
            (settled_row (where_of self.old)
            (places.SecondName (first_of self.old.place) self.old.place.amount self.old.place.name.items)
            (token_shown token.entry))) }
    {
        if is_colon(token) {
            self.end_row(false, self.place.first_relation, self.place.amount.value)?;
            self.place.stage = Stage::FirstName;
            return Ok(None);
        }
        let amount = self.place.amount;
        let Ok(kind) = self.draft.add_term(&amount, self.place.name.as_slice()) else {
            return Err(AllocError);
        };
        self.place.given = true;
        self.place.stage = Stage::AfterTerm;
        Ok(kind)
    }

    /// Takes what the tokens before say, now that this one is known.
    pub(crate) fn settle(&mut self, token: Token<'_>) -> Result<Option<u32>, AllocError>
        ensures { IfOk result (AreTaken self.old self.new (settled (where_of self.old) (token_shown token.entry))) }
    {
        match self.part {
            LpPart::Minimize | LpPart::Maximize => match self.place.stage {
                // The name in front is that of a term, unless it is the objective's.
                Stage::FirstName => {
                    if is_colon(token) {
                        return Ok(None);
                    }
                    let name = self.place.name.as_slice();
                    let kind = self.draft.add_cost(&unit(false), name)?;
                    self.place.given = false;
                    self.place.stage = Stage::AfterTerm;
                    Ok(kind)
                }
                Stage::TermNumber => Ok(self.settle_cost_number(token)),
                _ => Ok(None),
            },
            LpPart::Constraints => match self.place.stage {
                Stage::FirstName => self.settle_row_name(token),
                Stage::SecondNumber => {
                    if self.goes_on_with(token) {
                        return Ok(None);
                    }
                    self.end_row(false, self.place.first_relation, self.place.amount.value)?;
                    self.place.stage = Stage::Start;
                    Ok(None)
                }
                Stage::SecondName => self.settle_second_name(token),
                _ => Ok(None),
            },
            _ => Ok(None),
        }
    }
}
