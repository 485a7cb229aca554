//! Columns, in the order of first mention.
ghost use Rattle.std.specs.Prelude.{◌≡◌, ◌<◌, ◌++◌, ◌∷◌, [], false, None, length, IfOk, OnOk, OnErr, IfSome, is_none, ◌&&◌, nat_le};
ghost use Rattle.cip_rational.specs.Rational.{zeroℚ};
ghost use Rattle.cip_problem.specs.Limits.{most_columns};
ghost use Rattle.cip_text_rules.specs.MpsWords.{number_in};
ghost use Rattle.cip_text_rules.specs.LpFacts as facts;
ghost use Rattle.cip_text_rules.specs.LpPlaces.{Mentions};
ghost use Rattle.cip_lp.specs.LpDrafts.{IsKeptLp};
ghost use Rattle.cip_lp.specs.LpEvents.{IsTaken};

use crate::draft::LpDraft;
use cip_frac::Frac;
use cip_lin::Sides;
use cip_model::{LONGEST_NAME, MOST_COLUMNS};
use cip_mps_lines::NameIndex;
use std::alloc::{AllocError, Global};

/// Whether a name is too long.
pub(crate) fn is_long(name: &[u8]) -> bool
    ensures { result ≡ facts.is_long name.now }
{
    name.len() > LONGEST_NAME
}

/// Puts a column of this name behind the others. `Err` comes where a growth was refused, and changes nothing.
fn put_column(
    alloc: Global,
    names: &mut NameIndex,
    costs: &mut Vec<Frac>,
    sides: &mut Vec<Sides>,
    whole: &mut Vec<bool>,
    name: &[u8],
) -> Result<(), AllocError>
    requires { number_in names.old name.now ≡ None }
    ensures ok { OnOk result ((names.new ≡ names.old ++ name.now ∷ [])
        × (costs.new.items ≡ costs.old.items ++ zeroℚ ∷ [])
        × (sides.new.items ≡ sides.old.items ++ facts.default_sides ∷ [])
        × (whole.new.items ≡ whole.old.items ++ false ∷ [])) }
    ensures err { OnErr result ((names.new ≡ names.old) × (costs.new.items ≡ costs.old.items)
        × (sides.new.items ≡ sides.old.items) × (whole.new.items ≡ whole.old.items)) }
{
    let Ok(()) = costs.reserve(1) else {
        return Err(AllocError);
    };
    let Ok(()) = sides.reserve(1) else {
        return Err(AllocError);
    };
    let Ok(()) = whole.reserve(1) else {
        return Err(AllocError);
    };
    let Ok(owned) = name.to_vec(alloc) else {
        return Err(AllocError);
    };
    let Ok(()) = names.add(owned) else {
        return Err(AllocError);
    };
    costs.push_reserved(Frac::zero());
    sides.push_reserved(Sides {
        low: Some(Frac::zero()),
        high: None,
    });
    whole.push_reserved(false);
    Ok(())
}

impl LpDraft {
    /// The number of the column of this name; the one behind the last that was named is looked at first.
    pub(crate) fn find_column(&self, name: &[u8]) -> Option<usize>
        ensures number { result ≡ number_in self.now.column_names name.now }
        ensures within { IfSome result (λ number. number < length self.now.column_names) }
        ensures small { IfSome result (λ number. number < most_columns) }
    {
        self.column_names.find_near(name, self.near)
    }

    /// What was said is sound, and the row that hasn't ended has a name of its own. Nothing is done.
    pub(crate) fn stand_sound(&self)
        ensures { IsKeptLp self.now }
    {
        let _ = &self.form;
    }

    /// Whether a name is that of one column too many.
    pub(crate) fn is_column_too_many(&self, column: Option<usize>) -> bool
        ensures { result ≡ (is_none column && nat_le most_columns (length self.now.column_names)) }
    {
        column.is_none() && self.costs.len() >= MOST_COLUMNS
    }

    /// Puts a column behind the others, and answers its number. `Err` comes where a growth was refused, and changes
    /// nothing that was said.
    fn add_column(&mut self, name: &[u8]) -> Result<u32, AllocError>
        requires new { number_in self.old.column_names name.now ≡ None }
        requires quiet { facts.event_fault self.old (Mentions name.now) ≡ None }
        ensures number { IfOk result (λ number. number ≡ length self.old.column_names) }
        ensures ok { OnOk result (self.new ≡ facts.with_column self.old name.now) }
    {
        let number = self.costs.len() as u32;
        put_column(
            self.alloc,
            &mut self.column_names,
            &mut self.costs,
            &mut self.sides,
            &mut self.whole,
            name,
        )?;
        Ok(number)
    }

    /// The number of a column that is named, which is added where it is new. `Err` comes where a growth was refused.
    pub(crate) fn make_column(
        &mut self,
        name: &[u8],
        column: Option<usize>,
    ) -> Result<u32, AllocError>
        requires column { column ≡ number_in self.old.column_names name.now }
        requires small { IfSome column (λ number. number < most_columns) }
        requires quiet { facts.event_fault self.old (Mentions name.now) ≡ None }
        ensures number { IfOk result (λ number. number ≡ facts.column_number self.old name.now) }
        ensures ok { OnOk result (self.new ≡ facts.with_column self.old name.now) }
    {
        let number = match column {
            Some(number) => number as u32,
            None => self.add_column(name)?,
        };
        self.near = number as usize + 1;
        Ok(number)
    }

    /// Takes a column that is named, and answers the kind of the fault, if there is one.
    pub fn mention(&mut self, name: &[u8]) -> Result<Option<u32>, AllocError>
        ensures { IfOk result (IsTaken self.old self.new (Mentions name.now)) }
    {
        let column = self.find_column(name);
        if self.is_column_too_many(column) {
            return Ok(Some(9));
        }
        if is_long(name) {
            return Ok(Some(10));
        }
        self.make_column(name, column)?;
        Ok(None)
    }
}
