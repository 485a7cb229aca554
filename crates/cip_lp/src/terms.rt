//! Terms and numbers of forms, and values of rows.
ghost use Rattle.std.specs.Prelude.{◌≡◌, None, Some, IfOk, OnOk, if◌then◌else◌, false};
ghost use Rattle.cip_text_rules.specs.LpPlaces as places;
ghost use Rattle.cip_text_rules.specs.LpPlaces.{AddsCost, Adds, says, moves};
ghost use Rattle.cip_text_rules.specs.LpFacts.{facts_with};
ghost use Rattle.cip_text_rules.specs.LpGrammar.{amount_in, with_number, row_ends};
ghost use Rattle.cip_lp.specs.LpKinds.{relation_shown};
ghost use Rattle.cip_lp.specs.LpStages.{first_of, given_of, place_at, where_of};
ghost use Rattle.cip_lp.specs.LpTaken.{AreTaken};

use crate::places::Stage;
use crate::statements::Statements;
use crate::{Amount, Relation, amount_of, high_side, low_side};
use cip_frac::Frac;
use std::alloc::AllocError;

/// Keeps a name in place of another one. `Err` comes where a growth was refused.
pub(crate) fn set_name(kept: &mut Vec<u8>, name: &[u8]) -> Result<(), AllocError>
    ensures { OnOk result (kept.new.items ≡ name.now) }
{
    kept.clear();
    kept.extend_from_slice(name)
}

impl Statements {
    /// Keeps a name, of a token that says nothing yet.
    pub(crate) fn keep_name(&mut self, name: &[u8]) -> Result<Option<u32>, AllocError>
        ensures { IfOk result (AreTaken self.old self.new
            (moves (where_of self.old) (places.FirstName name.now))) }
    {
        set_name(&mut self.place.name, name)?;
        self.place.stage = Stage::FirstName;
        Ok(None)
    }

    /// Takes a term of the objective.
    pub(crate) fn cost(&mut self, amount: &Amount, name: &[u8]) -> Result<Option<u32>, AllocError>
        ensures { IfOk result (AreTaken self.old self.new
            (says (AddsCost amount.now name.now) (where_of self.old) (places.AfterTerm None))) }
    {
        let kind = self.draft.add_cost(amount, name)?;
        self.place.given = false;
        self.place.stage = Stage::AfterTerm;
        Ok(kind)
    }

    /// Takes a term of a row that stands behind a value and a relation, or not.
    pub(crate) fn term(
        &mut self,
        amount: &Amount,
        name: &[u8],
        given: bool,
    ) -> Result<Option<u32>, AllocError>
        ensures { IfOk result (AreTaken self.old self.new
            (says (Adds amount.now name.now) (where_of self.old)
            (places.AfterTerm (if given then Some (first_of self.old.place) else None)))) }
    {
        let kind = self.draft.add_term(amount, name)?;
        self.place.given = given;
        self.place.stage = Stage::AfterTerm;
        Ok(kind)
    }

    /// Goes on behind a sign.
    pub(crate) fn sign(&mut self, minus: bool, given: bool, stage: Stage) -> Option<u32>
        ensures { AreTaken self.old self.new (moves (where_of self.old)
            (place_at stage (record self.old.place { minus = minus; given = given; stage = stage }))) result }
    {
        self.place.minus = minus;
        self.place.given = given;
        self.place.stage = stage;
        None
    }

    /// Goes on behind a number.
    pub(crate) fn number(
        &mut self,
        minus: bool,
        text: &[u8],
        given: bool,
        stage: Stage,
    ) -> Option<u32>
        ensures { AreTaken self.old self.new (with_number (where_of self.old) text.now
            (moves (where_of self.old) (place_at stage
            (record self.old.place { amount = amount_in minus text.now; given = given; stage = stage })))) result }
    {
        match amount_of(minus, text) {
            Err(kind) => Some(kind),
            Ok(amount) => {
                self.place.amount = amount;
                self.place.given = given;
                self.place.stage = stage;
                None
            }
        }
    }

    /// Ends the row whose form has this relation to a value, and stands behind another value or not.
    pub(crate) fn end_row(
        &mut self,
        given: bool,
        relation: Relation,
        value: Frac,
    ) -> Result<(), AllocError>
        ensures draft { OnOk result (self.new.draft ≡ facts_with self.old.draft
            (row_ends (if given then Some (first_of self.old.place) else None) (relation_shown relation) value)) }
        ensures same { OnOk result (self.new ≡ record self.old { draft = self.new.draft }) }
    {
        let first = self.place.first.value;
        if !given {
            return self
                .draft
                .end_row(low_side(relation, value), high_side(relation, value));
        }
        match relation {
            Relation::AtMost => self.draft.end_row(Some(first), Some(value)),
            _ => self.draft.end_row(Some(value), Some(first)),
        }
    }

    /// Takes the value that ends a row.
    pub(crate) fn last_number(
        &mut self,
        minus: bool,
        text: &[u8],
    ) -> Result<Option<u32>, AllocError>
        ensures { IfOk result (AreTaken self.old self.new
            (with_number (where_of self.old) text.now
            (says (row_ends (given_of self.old.place) (relation_shown self.old.place.relation)
            (amount_in minus text.now).value) (where_of self.old) places.Start))) }
    {
        match amount_of(minus, text) {
            Err(kind) => Ok(Some(kind)),
            Ok(amount) => {
                self.end_row(self.place.given, self.place.relation, amount.value)?;
                self.place.stage = Stage::Start;
                Ok(None)
            }
        }
    }
}
