//! Tokens of rows.
ghost use Rattle.std.specs.Prelude.{IfOk};
ghost use Rattle.cip_text_rules.specs.LpTokens as tokens;
ghost use Rattle.cip_text_rules.specs.LpGrammar.{row_read, second_term};
ghost use Rattle.cip_lp.specs.LpKinds.{relation_shown};
ghost use Rattle.cip_lp.specs.LpLines.{token_shown};
ghost use Rattle.cip_lp.specs.LpStages.{first_of, place_at, where_of};
ghost use Rattle.cip_lp.specs.LpTaken.{AreTaken};

use crate::places::Stage;
use crate::statements::Statements;
use crate::terms::set_name;
use crate::{Amount, Relation, Token, agree, amount_of, is_equality, unit};
use std::alloc::AllocError;

impl Statements {
    /// Takes the first term behind a value and a relation.
    fn second_term(&mut self, amount: &Amount, name: &[u8]) -> Result<Option<u32>, AllocError>
        ensures { IfOk result (AreTaken self.old self.new
            (second_term (where_of self.old) (first_of self.old.place) amount.now name.now)) }
    {
        if is_equality(self.place.first_relation) {
            return Ok(Some(3));
        }
        self.term(amount, name, true)
    }

    /// Takes a name in a row.
    fn row_name(&mut self, name: &[u8]) -> Result<Option<u32>, AllocError>
        ensures { IfOk result (AreTaken self.old self.new (row_read (where_of self.old)
            (place_at self.old.place.stage self.old.place) (tokens.Name name.now))) }
    {
        let minus = self.place.minus;
        let amount = self.place.amount;
        let given = self.place.given;
        match self.place.stage {
            Stage::Start => self.keep_name(name),
            Stage::Labelled => self.term(&unit(false), name, false),
            Stage::FirstSign => self.term(&unit(minus), name, false),
            Stage::FirstNumber => self.term(&amount, name, false),
            Stage::SecondStart => self.second_term(&unit(false), name),
            Stage::SecondSign => self.second_term(&unit(minus), name),
            Stage::SecondNumber => {
                if self.place.first.is_zero() {
                    set_name(&mut self.place.name, name)?;
                    self.place.stage = Stage::SecondName;
                    return Ok(None);
                }
                self.second_term(&amount, name)
            }
            Stage::TermSign => self.term(&unit(minus), name, given),
            Stage::TermNumber => self.term(&amount, name, given),
            _ => Ok(Some(3)),
        }
    }

    /// Takes a sign in a row.
    fn row_sign(&mut self, minus: bool) -> Result<Option<u32>, AllocError>
        ensures { IfOk result (AreTaken self.old self.new (row_read (where_of self.old)
            (place_at self.old.place.stage self.old.place) (tokens.Sign minus))) }
    {
        let given = self.place.given;
        match self.place.stage {
            Stage::Start => {
                let kind = self.draft.begin_unnamed()?;
                self.place.minus = minus;
                self.place.stage = Stage::FirstSign;
                Ok(kind)
            }
            Stage::Labelled => Ok(self.sign(minus, given, Stage::FirstSign)),
            Stage::SecondStart => Ok(self.sign(minus, given, Stage::SecondSign)),
            Stage::AfterTerm => Ok(self.sign(minus, given, Stage::TermSign)),
            Stage::LastDue => Ok(self.sign(minus, given, Stage::LastSign)),
            _ => Ok(Some(3)),
        }
    }

    /// Takes a number in a row.
    fn row_number(&mut self, text: &[u8]) -> Result<Option<u32>, AllocError>
        ensures { IfOk result (AreTaken self.old self.new (row_read (where_of self.old)
            (place_at self.old.place.stage self.old.place) (tokens.Number text.now))) }
    {
        let minus = self.place.minus;
        let given = self.place.given;
        match self.place.stage {
            Stage::Start => match amount_of(false, text) {
                Err(kind) => Ok(Some(kind)),
                Ok(amount) => {
                    let kind = self.draft.begin_unnamed()?;
                    self.place.amount = amount;
                    self.place.stage = Stage::FirstNumber;
                    Ok(kind)
                }
            },
            Stage::Labelled => Ok(self.number(false, text, given, Stage::FirstNumber)),
            Stage::FirstSign => Ok(self.number(minus, text, given, Stage::FirstNumber)),
            Stage::SecondStart => Ok(self.number(false, text, given, Stage::SecondNumber)),
            Stage::SecondSign => Ok(self.number(minus, text, given, Stage::SecondNumber)),
            Stage::TermSign => Ok(self.number(minus, text, given, Stage::TermNumber)),
            Stage::LastDue => self.last_number(false, text),
            Stage::LastSign => self.last_number(minus, text),
            _ => Ok(Some(3)),
        }
    }

    /// Takes a relation in a row.
    fn row_relation(&mut self, relation: Relation) -> Option<u32>
        ensures { AreTaken self.old self.new (row_read (where_of self.old)
            (place_at self.old.place.stage self.old.place) (tokens.Relates (relation_shown relation))) result }
    {
        match self.place.stage {
            Stage::FirstNumber => {
                if is_equality(relation) && !self.place.amount.is_zero() {
                    return Some(3);
                }
                self.place.first = self.place.amount;
                self.place.first_relation = relation;
                self.place.stage = Stage::SecondStart;
                None
            }
            Stage::SecondNumber => {
                if !self.place.amount.is_zero() || !agree(self.place.first_relation, relation) {
                    return Some(3);
                }
                self.place.given = true;
                self.place.relation = relation;
                self.place.stage = Stage::LastDue;
                None
            }
            Stage::AfterTerm => {
                if self.place.given && !agree(self.place.first_relation, relation) {
                    return Some(3);
                }
                self.place.relation = relation;
                self.place.stage = Stage::LastDue;
                None
            }
            _ => Some(3),
        }
    }

    /// Takes a token of a row.
    pub(crate) fn read_row(&mut self, token: Token<'_>) -> Result<Option<u32>, AllocError>
        ensures { IfOk result (AreTaken self.old self.new
            (row_read (where_of self.old) (place_at self.old.place.stage self.old.place) (token_shown token.entry))) }
    {
        match token {
            Token::Name(name) => self.row_name(name),
            Token::Sign { minus } => self.row_sign(minus),
            Token::Number(text) => self.row_number(text),
            Token::Relates(relation) => Ok(self.row_relation(relation)),
            Token::Colon => match self.place.stage {
                Stage::FirstName => {
                    let kind = self.draft.begin_named(self.place.name.as_slice())?;
                    self.place.stage = Stage::Labelled;
                    Ok(kind)
                }
                _ => Ok(Some(3)),
            },
            _ => Ok(Some(3)),
        }
    }
}
