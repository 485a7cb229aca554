//! The first state of a linear program.
ghost use Rattle.std.specs.Prelude.{◌≡◌, ℕ, ◌<◌, ◌++◌, length, map, None, IfOk, MatchResult};
ghost use Rattle.cip_problem.specs.RowTerms.{AreTerms};
ghost use Rattle.cip_problem.specs.Multipliers.{row_sides};
ghost use Rattle.cip_bland.specs.Operations.{first_overflow};
ghost use Rattle.cip_bland.specs.FirstState.{first_operations};
ghost use Rattle.cip_bland.specs.ProgramState.{terms_at, system_of, first_of_program};
ghost use Rattle.cip_dict.specs.Entries.{IsFirstFault};
ghost use Rattle.cip_simplex.specs.LpEntries.{entry_of, entries_in};

use crate::lp::Lp;
use crate::solver::Solver;
use cip_dict::{Dict, FirstFault, Frac};
use cip_lin::{Sides, Term};
use std::alloc::{AllocError, Global};

/// Puts the entries of row r at the end; `Err` where a growth was refused.
fn put_entries(
    entries: &mut Vec<(u32, u32, Frac)>,
    r: u32,
    terms: &[Term],
) -> Result<(), AllocError>
    ensures { IfOk result (λ _. entries.new.items ≡ entries.old.items ++ map (entry_of r) terms.now) }
{
    for term in terms {
        entries.push((r, term.col, term.coef))?;
    }
    Ok(())
}

/// Makes two lists those of the entries and of the sides of all rows, which have their terms by rising column; `Err`
/// where a growth was refused.
fn gather(
    lp: &Lp,
    entries: &mut Vec<(u32, u32, Frac)>,
    sides: &mut Vec<Sides>,
) -> Result<(), AllocError>
    ensures entries { IfOk result (λ _. (entries.new.items ≡ entries_in lp.now.rows)
        × ((r : ℕ) → r < length lp.now.rows → AreTerms (terms_at lp.now.rows r))) }
    ensures sides { IfOk result (λ _. sides.new.items ≡ map row_sides lp.now.rows) }
{
    entries.clear();
    sides.clear();
    for r in 0..lp.row_count() {
        let row = lp.row(r);
        put_entries(entries, r as u32, row.terms())?;
        sides.push(Sides {
            low: row.low(),
            high: row.high(),
        })?;
    }
    Ok(())
}

/// The first state of a linear program: rows are basic, and each column stands at its low side, else at its high side,
/// else at 0. `OutOfRange` comes only where an operation of its values leaves the range; `NoMemory` where memory was
/// refused.
pub(crate) fn first_state(alloc: Global, solver: &mut Solver, lp: &Lp) -> Result<Dict, FirstFault>
    ensures { MatchResult result
        (λ dict. (first_overflow (first_operations (system_of lp.now)) ≡ None) × (dict ≡ first_of_program lp.now))
        (IsFirstFault (system_of lp.now)) }
{
    let _columns = lp.columns();
    gather(lp, &mut solver.entries, &mut solver.sides)?;
    Dict::first(
        alloc,
        &mut solver.spare,
        solver.entries.as_slice(),
        solver.sides.as_slice(),
        lp.sides(),
        lp.costs(),
    )
}
