//! Tokens of Bounds, Generals and Binaries.
ghost use Rattle.std.specs.Prelude.{◌≡◌, IfOk, if◌then◌else◌};
ghost use Rattle.cip_text_rules.specs.LpTokens as tokens;
ghost use Rattle.cip_text_rules.specs.LpPlaces as places;
ghost use Rattle.cip_text_rules.specs.LpFacts.{facts_with};
ghost use Rattle.cip_text_rules.specs.LpGrammar.{bound_read, bound_set, bound_value, limit_in, with_limit, general_read, binary_read};
ghost use Rattle.cip_lp.specs.LpKinds.{relation_shown};
ghost use Rattle.cip_lp.specs.LpLines.{token_shown};
ghost use Rattle.cip_lp.specs.LpLimits.{limit_shown};
ghost use Rattle.cip_lp.specs.LpStages.{place_at, where_of};
ghost use Rattle.cip_lp.specs.LpTaken.{AreTaken};

use crate::places::Stage;
use crate::statements::Statements;
use crate::terms::set_name;
use crate::{Limit, LpDraft, Relation, Token, agree, flipped, is_wrong, limit_of};
use std::alloc::AllocError;

/// Sets the side, or both, that this relation to a value says of a column.
fn set_bound(draft: &mut LpDraft, name: &[u8], relation: Relation, limit: &Limit)
    ensures { draft.new ≡ facts_with draft.old (bound_set name.now (relation_shown relation) (limit_shown limit.now)) }
{
    let value = limit.value;
    match relation {
        Relation::AtMost => draft.set_high(name, value),
        Relation::EqualTo => draft.set_both(name, value),
        Relation::AtLeast => draft.set_low(name, value),
    }
}

impl Statements {
    /// Takes a value in front.
    fn front_limit(&mut self, minus: bool, text: &[u8]) -> Option<u32>
        ensures { AreTaken self.old self.new
            (with_limit (where_of self.old) text.now
            (places.moves (where_of self.old) (places.LimitRead (limit_in minus text.now)))) result }
    {
        match limit_of(minus, text) {
            None => Some(5),
            Some(limit) => {
                self.place.limit = limit;
                self.place.stage = Stage::LimitRead;
                None
            }
        }
    }

    /// Takes the value behind a name and a relation.
    fn last_limit(&mut self, minus: bool, text: &[u8]) -> Option<u32>
        ensures { AreTaken self.old self.new
            (with_limit (where_of self.old) text.now
            (bound_value (where_of self.old) self.old.place.name.items (relation_shown self.old.place.relation)
            (limit_in minus text.now))) result }
    {
        match limit_of(minus, text) {
            None => Some(5),
            Some(limit) => {
                if is_wrong(self.place.relation, &limit) {
                    return Some(11);
                }
                set_bound(
                    &mut self.draft,
                    self.place.name.as_slice(),
                    self.place.relation,
                    &limit,
                );
                self.place.stage = Stage::Start;
                None
            }
        }
    }

    /// Takes a name in Bounds.
    fn bound_name(&mut self, name: &[u8]) -> Result<Option<u32>, AllocError>
        ensures { IfOk result (AreTaken self.old self.new (bound_read (where_of self.old)
            (place_at self.old.place.stage self.old.place) (tokens.Name name.now))) }
    {
        match self.place.stage {
            Stage::Start | Stage::BoundedName => {
                let Ok(kind) = self.draft.mention(name) else {
                    return Err(AllocError);
                };
                set_name(&mut self.place.name, name)?;
                self.place.stage = Stage::BoundName;
                Ok(kind)
            }
            Stage::LimitDue => {
                let Ok(kind) = self.draft.mention(name) else {
                    return Err(AllocError);
                };
                if kind.is_some() {
                    return Ok(kind);
                }
                let relation = flipped(self.place.relation);
                set_bound(&mut self.draft, name, relation, &self.place.limit);
                set_name(&mut self.place.name, name)?;
                self.place.stage = Stage::BoundedName;
                Ok(None)
            }
            _ => Ok(Some(3)),
        }
    }

    /// Takes a value in Bounds, infinite or not.
    fn bound_limit(&mut self, text: &[u8]) -> Option<u32>
        ensures number { AreTaken self.old self.new (bound_read (where_of self.old)
            (place_at self.old.place.stage self.old.place) (tokens.Number text.now)) result }
        ensures infinite { AreTaken self.old self.new (bound_read (where_of self.old)
            (place_at self.old.place.stage self.old.place) (tokens.Infinite text.now)) result }
    {
        let minus = self.place.minus;
        match self.place.stage {
            Stage::Start | Stage::BoundedName => self.front_limit(false, text),
            Stage::LimitSign => self.front_limit(minus, text),
            Stage::BoundDue => self.last_limit(false, text),
            Stage::BoundSign => self.last_limit(minus, text),
            _ => Some(3),
        }
    }

    /// Takes a relation in Bounds.
    fn bound_relation(&mut self, relation: Relation) -> Option<u32>
        ensures { AreTaken self.old self.new (bound_read (where_of self.old)
            (place_at self.old.place.stage self.old.place) (tokens.Relates (relation_shown relation))) result }
    {
        match self.place.stage {
            Stage::BoundName => {
                self.place.relation = relation;
                self.place.stage = Stage::BoundDue;
                None
            }
            Stage::LimitRead => {
                if is_wrong(flipped(relation), &self.place.limit) {
                    return Some(11);
                }
                self.place.relation = relation;
                self.place.stage = Stage::LimitDue;
                None
            }
            Stage::BoundedName => {
                if !agree(self.place.relation, relation) {
                    return Some(3);
                }
                self.place.relation = relation;
                self.place.stage = Stage::BoundDue;
                None
            }
            _ => Some(3),
        }
    }

    /// Takes a token of Bounds.
    pub(crate) fn read_bound(&mut self, token: Token<'_>) -> Result<Option<u32>, AllocError>
        ensures { IfOk result (AreTaken self.old self.new
            (bound_read (where_of self.old) (place_at self.old.place.stage self.old.place) (token_shown token.entry))) }
    {
        match token {
            Token::Name(name) => self.bound_name(name),
            Token::Sign { minus } => {
                let given = self.place.given;
                match self.place.stage {
                    Stage::Start | Stage::BoundedName => {
                        Ok(self.sign(minus, given, Stage::LimitSign))
                    }
                    Stage::BoundDue => Ok(self.sign(minus, given, Stage::BoundSign)),
                    _ => Ok(Some(3)),
                }
            }
            Token::Number(text) => Ok(self.bound_limit(text)),
            Token::Infinite(text) => Ok(self.bound_limit(text)),
            Token::Relates(relation) => Ok(self.bound_relation(relation)),
            Token::Free => match self.place.stage {
                Stage::BoundName => {
                    self.draft.set_both(self.place.name.as_slice(), None);
                    self.place.stage = Stage::Start;
                    Ok(None)
                }
                _ => Ok(Some(3)),
            },
            _ => Ok(Some(3)),
        }
    }

    /// Takes a token of Generals, or of Binaries.
    pub(crate) fn read_whole(
        &mut self,
        token: Token<'_>,
        binary: bool,
    ) -> Result<Option<u32>, AllocError>
        ensures { IfOk result (AreTaken self.old self.new (if binary
            then binary_read (where_of self.old) (token_shown token.entry)
            else general_read (where_of self.old) (token_shown token.entry))) }
    {
        let Token::Name(name) = token else {
            return Ok(Some(3));
        };
        let kind = self.draft.mention(name)?;
        if kind.is_some() {
            return Ok(kind);
        }
        self.place.stage = Stage::Start;
        if binary {
            self.draft.make_binary(name);
        } else {
            self.draft.make_whole(name);
        }
        Ok(None)
    }
}
