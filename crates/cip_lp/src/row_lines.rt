//! Rows and sections.
ghost use Rattle.std.specs.Prelude.{◌≡◌, ◌++◌, ◌∷◌, [], None, Some, false, IfOk, OnOk, OnErr};
ghost use Rattle.cip_rational.specs.NumberText.{natural_text};
ghost use Rattle.cip_text_rules.specs.MpsWords.{is_in};
ghost use Rattle.cip_text_rules.specs.LpWords as text;
ghost use Rattle.cip_text_rules.specs.LpFacts as facts;
ghost use Rattle.cip_text_rules.specs.LpPlaces.{Opens, Begins, Ends};
ghost use Rattle.cip_lp.specs.LpEvents.{IsLpKind, IsTaken};

use crate::columns::is_long;
use crate::draft::LpDraft;
use cip_frac::Frac;
use cip_lin::Row;
use cip_model::MOST_ROWS;
use cip_mps_lines::NameIndex;
use itoa::Buffer;
use std::alloc::{AllocError, Global};

/// The name of a row that has none of its own: `R` and its number.
fn own_name(alloc: Global, number: usize) -> Result<Vec<u8>, AllocError>
    ensures { IfOk result (λ name. name.items ≡ 82 ∷ natural_text number) }
{
    let mut name = Vec::new(alloc);
    let mut digits = Buffer::new();
    let Ok(()) = name.push(b'R') else {
        return Err(AllocError);
    };
    let Ok(()) = name.extend_from_slice(digits.format(number as u64).as_bytes()) else {
        return Err(AllocError);
    };
    Ok(name)
}

/// Puts a row with its name behind the others. `Err` comes where a growth was refused, and changes nothing.
fn put_row(
    names: &mut NameIndex,
    rows: &mut Vec<Row>,
    name: Vec<u8>,
    row: Row,
) -> Result<(), AllocError>
    requires { is_in names.old name.items ≡ false }
    ensures ok { OnOk result ((names.new ≡ names.old ++ name.items ∷ [])
        × (rows.new.items ≡ rows.old.items ++ row ∷ [])) }
    ensures err { OnErr result ((names.new ≡ names.old) × (rows.new.items ≡ rows.old.items)) }
{
    let Ok(()) = rows.reserve(1) else {
        drop(row);
        return Err(AllocError);
    };
    let Ok(()) = names.add(name) else {
        drop(row);
        return Err(AllocError);
    };
    rows.push_reserved(row);
    Ok(())
}

impl LpDraft {
    /// Begins the objective; the cost is to be greatest, or least.
    pub fn open_costs(&mut self, maximized: bool)
        ensures { self.new ≡ facts.facts_with self.old (Opens (text.Costs maximized)) }
    {
        self.maximized = maximized;
    }

    /// Begins the rows.
    pub fn open_rows(&mut self)
        ensures { self.new ≡ facts.facts_with self.old (Opens text.Constraints) }
    {
        self.form.clear();
    }

    /// Whether a row or the objective has this name.
    fn is_taken(&self, name: &[u8]) -> bool
        ensures { result ≡ facts.is_taken self.now name.now }
    {
        if let Some(objective) = &self.objective {
            if objective.as_slice() == name {
                return true;
            }
        }
        self.row_names.find(name).is_some()
    }

    /// The kind of the fault of a row that begins with this name, if it has one.
    fn begin_fault(&self, name: &[u8]) -> Option<u32>
        ensures kind { result ≡ facts.event_fault self.now (Begins (Some name.now)) }
        ensures few { IsLpKind result }
    {
        if self.is_taken(name) {
            return Some(6);
        }
        if self.rows.len() >= MOST_ROWS {
            return Some(9);
        }
        if is_long(name) {
            return Some(10);
        }
        None
    }

    /// Begins a row of this name, and answers the kind of the fault, if there is one.
    fn begin(&mut self, name: Vec<u8>) -> Option<u32>
        ensures { IsTaken self.old self.new (Begins (Some name.items)) result }
    {
        let fault = self.begin_fault(name.as_slice());
        if fault.is_some() {
            return fault;
        }
        self.row_name = Some(name);
        None
    }

    /// Begins a row of this name, and answers the kind of the fault, if there is one.
    pub fn begin_named(&mut self, name: &[u8]) -> Result<Option<u32>, AllocError>
        ensures { IfOk result (IsTaken self.old self.new (Begins (Some name.now))) }
    {
        let owned = name.to_vec(self.alloc)?;
        Ok(self.begin(owned))
    }

    /// Begins a row without a name of its own, and answers the kind of the fault, if there is one.
    pub fn begin_unnamed(&mut self) -> Result<Option<u32>, AllocError>
        ensures { IfOk result (IsTaken self.old self.new (Begins None)) }
    {
        let name = own_name(self.alloc, self.rows.len())?;
        Ok(self.begin(name))
    }

    /// Ends the row in hand between two sides. `Err` comes where a growth was refused.
    pub fn end_row(&mut self, low: Option<Frac>, high: Option<Frac>) -> Result<(), AllocError>
        ensures { OnOk result (self.new ≡ facts.facts_with self.old (Ends low high)) }
    {
        let Some(name) = self.row_name.take() else {
            return Ok(());
        };
        let Ok(row) = self.form.take_row(self.alloc, low, high) else {
            return Err(AllocError);
        };
        put_row(&mut self.row_names, &mut self.rows, name, row)
    }
}
