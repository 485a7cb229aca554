//! Tokens of the objective.
ghost use Rattle.std.specs.Prelude.{IfOk};
ghost use Rattle.cip_text_rules.specs.LpTokens as tokens;
ghost use Rattle.cip_text_rules.specs.LpGrammar.{cost_read};
ghost use Rattle.cip_lp.specs.LpLines.{token_shown};
ghost use Rattle.cip_lp.specs.LpStages.{place_at, where_of};
ghost use Rattle.cip_lp.specs.LpTaken.{AreTaken};

use crate::places::Stage;
use crate::statements::Statements;
use crate::{Token, unit};
use std::alloc::AllocError;

impl Statements {
    /// Takes a name in the objective.
    fn cost_name(&mut self, name: &[u8]) -> Result<Option<u32>, AllocError>
        ensures { IfOk result (AreTaken self.old self.new (cost_read (where_of self.old)
            (place_at self.old.place.stage self.old.place) (tokens.Name name.now))) }
    {
        match self.place.stage {
            Stage::Start => self.keep_name(name),
            Stage::Labelled => self.cost(&unit(false), name),
            Stage::TermSign => {
                let minus = self.place.minus;
                self.cost(&unit(minus), name)
            }
            Stage::TermNumber => {
                let amount = self.place.amount;
                self.cost(&amount, name)
            }
            _ => Ok(Some(3)),
        }
    }

    /// Takes a token of the objective.
    pub(crate) fn read_cost(&mut self, token: Token<'_>) -> Result<Option<u32>, AllocError>
        ensures { IfOk result (AreTaken self.old self.new
            (cost_read (where_of self.old) (place_at self.old.place.stage self.old.place) (token_shown token.entry))) }
    {
        match token {
            Token::Name(name) => self.cost_name(name),
            Token::Sign { minus } => match self.place.stage {
                Stage::Start | Stage::Labelled | Stage::AfterTerm => {
                    Ok(self.sign(minus, false, Stage::TermSign))
                }
                _ => Ok(Some(3)),
            },
            Token::Number(text) => match self.place.stage {
                Stage::Start | Stage::Labelled => {
                    Ok(self.number(false, text, false, Stage::TermNumber))
                }
                Stage::TermSign => {
                    Ok(self.number(self.place.minus, text, false, Stage::TermNumber))
                }
                _ => Ok(Some(3)),
            },
            Token::Colon => match self.place.stage {
                Stage::FirstName => {
                    let kind = self.draft.name_objective(self.place.name.as_slice())?;
                    self.place.stage = Stage::Labelled;
                    Ok(kind)
                }
                _ => Ok(Some(3)),
            },
            _ => Ok(Some(3)),
        }
    }
}
