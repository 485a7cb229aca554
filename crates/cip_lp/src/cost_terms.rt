//! Terms of the objective and of rows.
ghost use Rattle.std.specs.Prelude.{◌≡◌, ◌<◌, ◌≤◌, ◌||◌, ◌∷◌, [], slice_set, vec_len, IfOk, IfSome};
ghost use Rattle.cip_problem.specs.Limits.{most_columns, most_entries};
ghost use Rattle.cip_text_rules.specs.MpsWords.{number_in};
ghost use Rattle.cip_text_rules.specs.LpFacts as facts;
ghost use Rattle.cip_text_rules.specs.LpPlaces.{NamesObjective, AddsCost, AddsConstant, Adds};
ghost use Rattle.cip_text_rules.specs.MpsRules.{rule, least};
ghost use Rattle.cip_lp.specs.LpEvents.{IsLpKind, IsTaken};

use crate::Amount;
use crate::columns::is_long;
use crate::draft::LpDraft;
use crate::form::FormTerm;
use cip_frac::Frac;
use cip_model::MOST_ENTRIES;
use std::alloc::AllocError;

/// Sets the cost of a column.
fn set_cost(costs: &mut Vec<Frac>, column: u32, cost: Frac)
    requires { column < vec_len costs.old }
    ensures { costs.new.items ≡ slice_set costs.old.items column cost }
{
    costs[column as usize] = cost;
}

/// How many numbers of rows aren't 0, with this one.
fn entries_with(entries: usize, amount: &Amount) -> usize
    requires { entries ≤ most_entries }
    ensures { result ≡ facts.entries_with entries amount.now }
{
    if amount.is_zero() {
        entries
    } else {
        entries + 1
    }
}

impl LpDraft {
    /// A cost as it is kept: one that is to be greatest is turned round.
    fn minimized(&self, value: Frac) -> Frac
        ensures { result ≡ facts.minimized self.now value }
    {
        if self.maximized { value.neg() } else { value }
    }

    /// Whether a column has a number in the form in hand.
    fn is_again(&self, name: &[u8], column: Option<usize>) -> bool
        requires column { column ≡ number_in self.now.column_names name.now }
        requires small { IfSome column (λ number. number < most_columns) }
        ensures { result ≡ facts.is_again self.now name.now }
    {
        match column {
            None => false,
            Some(number) => self.form.has(number as u32),
        }
    }

    /// Whether a number is one entry too many.
    fn is_entry_too_many(&self, amount: &Amount) -> bool
        ensures { result ≡ facts.is_entry_too_many self.now amount.now }
    {
        !amount.is_zero() && self.entries >= MOST_ENTRIES
    }

    /// The kind of the fault of a term, if it has one, where it may be one entry too many.
    fn term_fault(&self, name: &[u8], column: Option<usize>, full: bool) -> Option<u32>
        requires column { column ≡ number_in self.now.column_names name.now }
        requires small { IfSome column (λ number. number < most_columns) }
        ensures kind { result ≡ least (rule 7 (facts.is_again self.now name.now)
            ∷ rule 9 (facts.is_column_too_many self.now name.now || full) ∷ rule 10 (facts.is_long name.now) ∷ []) }
        ensures few { IsLpKind result }
    {
        if self.is_again(name, column) {
            return Some(7);
        }
        if self.is_column_too_many(column) || full {
            return Some(9);
        }
        if is_long(name) {
            return Some(10);
        }
        None
    }

    /// Takes the objective's name, and answers the kind of the fault, if there is one.
    pub fn name_objective(&mut self, name: &[u8]) -> Result<Option<u32>, AllocError>
        ensures { IfOk result (IsTaken self.old self.new (NamesObjective name.now)) }
    {
        if is_long(name) {
            return Ok(Some(10));
        }
        let Ok(owned) = name.to_vec(self.alloc) else {
            return Err(AllocError);
        };
        self.objective = Some(owned);
        Ok(None)
    }

    /// Takes the constant of the objective.
    pub fn add_constant(&mut self, amount: &Amount)
        ensures { self.new ≡ facts.facts_with self.old (AddsConstant amount.now) }
    {
        self.constant = self.minimized(amount.value);
    }

    /// Takes a term of the objective, and answers the kind of the fault, if there is one.
    pub fn add_cost(&mut self, amount: &Amount, name: &[u8]) -> Result<Option<u32>, AllocError>
        ensures { IfOk result (IsTaken self.old self.new (AddsCost amount.now name.now)) }
    {
        self.stand_sound();
        let column = self.find_column(name);
        let fault = self.term_fault(name, column, false);
        if fault.is_some() {
            return Ok(fault);
        }
        let Ok(number) = self.make_column(name, column) else {
            return Err(AllocError);
        };
        let cost = self.minimized(amount.value);
        let Ok(()) = self.form.put(FormTerm::of(number, amount)) else {
            return Err(AllocError);
        };
        set_cost(&mut self.costs, number, cost);
        Ok(None)
    }

    /// Takes a term of a row, and answers the kind of the fault, if there is one.
    pub fn add_term(&mut self, amount: &Amount, name: &[u8]) -> Result<Option<u32>, AllocError>
        ensures { IfOk result (IsTaken self.old self.new (Adds amount.now name.now)) }
    {
        self.stand_sound();
        let column = self.find_column(name);
        let fault = self.term_fault(name, column, self.is_entry_too_many(amount));
        if fault.is_some() {
            return Ok(fault);
        }
        let Ok(number) = self.make_column(name, column) else {
            return Err(AllocError);
        };
        let Ok(()) = self.form.put(FormTerm::of(number, amount)) else {
            return Err(AllocError);
        };
        self.entries = entries_with(self.entries, amount);
        Ok(None)
    }
}
