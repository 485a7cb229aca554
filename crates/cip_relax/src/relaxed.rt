//! The linear program of a node, solved and checked.
ghost use Rattle.std.specs.Prelude.{◌≡◌, ◌≤◌, ℕ, List, None, map, length, IfOk, MatchResult};
ghost use Rattle.cip_rational.specs.Rational.{◌+ℚ◌};
ghost use Rattle.cip_problem.specs.Program.{Sides, Program};
ghost use Rattle.cip_problem.specs.WellFormed.{columns};
ghost use Rattle.cip_cert.specs.Lent.{Lent, lent_of, multiples_of, Fits};
ghost use Rattle.cip_search.specs.Relaxation.{relaxation};
ghost use Rattle.cip_relax.specs.NodeRows.{usable_rows, usable_ids};
ghost use Rattle.cip_relax.specs.Solving.{SaysRight};
ghost use Rattle.cip_relax.specs.Relaxing.{node_program, IsCostFault, IsRelaxed};
ghost use Rattle.cip_relax.specs.declared.relaxed.Relaxed.TheVariants.{Unsolved};
ghost use Rattle.cip_relax.specs.Guessing.{StandsBeside};

use crate::asking::asked;
use crate::guessing::{Beside, Guessed, by_guess, start_at};
use crate::names::name_combo;
use crate::rows::UsableRows;
use crate::solvers::NodeSolver;
use cip_cert::{CutFault, FaultPlace, Rows, Scratch, empties, lower_bound};
use cip_frac::Frac;
use cip_lin::{Bounds, Combo};
use cip_model::Program;
use cip_rows::RowPool;
use cip_search::Move;
use cip_simplex::{Lp, LpAnswer, Solver, Start};
use std::alloc::{AllocError, Global};

/// Why the linear program of a node shows nothing.
#[derive(Drop)]
pub enum Mark {
    /// These moves by Bland's rule, the last of which is out of range.
    Wide { moves: Vec<Move> },
    /// As many moves by Bland's rule as are made lead to no end.
    Limit,
    /// This combination shows the optimum, or that there is no point, and the check refuses it, or its bound and the
    /// constant have no sum in the range, which is `Wide` past the last entry.
    Refused { combo: Combo, fault: CutFault },
}

/// What the linear program of a node came to.
#[derive(Drop)]
pub enum Relaxed {
    /// A point of least cost, that cost with the constant, and the combination that shows it.
    Bound {
        point: Vec<Frac>,
        bound: Frac,
        combo: Combo,
    },
    /// A point, and a bound with the constant which, rounded up where costs are whole, is at least what that costs.
    Near {
        point: Vec<Frac>,
        bound: Frac,
    },
    /// A point from which the cost falls without end.
    Falls {
        point: Vec<Frac>,
    },
    /// There is no point.
    Empty,
    /// The least cost isn't shown, for this reason; with a point, if one was found, and a bound with the constant, if
    /// one was.
    Unsolved {
        mark: Mark,
        point: Option<Vec<Frac>>,
        bound: Option<Frac>,
    },
}

/// Solves the linear program of a box over the rows of a program and those of a pool that may be used there.
fn solved(
    alloc: Global,
    solver: &mut Solver,
    program: &Program,
    usable: &UsableRows<'_>,
    start: Option<&Start>,
) -> Result<(LpAnswer, Start), AllocError>
    requires others { map (λ row. row.now) usable.now.rows.items
        ≡ usable_rows usable.now.bounds.now usable.now.pool.now.rows }
    requires columns { length usable.now.bounds.now ≡ columns program.now }
    requires pool { length usable.now.bounds.now ≡ usable.now.pool.now.columns }
    ensures { IfOk result (λ solved. SaysRight (relaxation program.now
        (usable_rows usable.now.bounds.now usable.now.pool.now.rows) usable.now.bounds.now) solved.0) }
{
    let _columns = program.columns();
    let _rows = usable.pool.rows();
    let others = usable.rows.as_slice();
    let lp = Lp::with_others(program.rows(), others, usable.bounds, program.costs());
    asked(alloc, solver, &lp, start)
}

/// The cost of an optimum with the constant, where the check accepts its combination and the sum is in the range.
fn checked_cost(
    rows: &Rows<'_>,
    program: &Program,
    bounds: &Bounds,
    combo: &Combo,
    cost: Frac,
    scratch: &mut Scratch,
) -> Result<Frac, CutFault>
    requires fits { Fits (length bounds.now) (lent_of rows.now) }
    requires room { length bounds.now ≤ length scratch.old.row.entries }
    requires columns { length bounds.now ≡ columns program.now }
    ensures bound { MatchResult result (λ bound. bound ≡ program.now.constant +ℚ cost)
        (IsCostFault program.now (lent_of rows.entry.now) bounds.now (length scratch.old.row.entries)
        (multiples_of combo.now) cost) }
    ensures room { length scratch.new.row.entries ≡ length scratch.old.row.entries }
{
    if let Err(fault) = lower_bound(rows, bounds, program.costs(), combo, scratch) {
        return Err(fault);
    }
    match program.constant().add(cost) {
        Ok(bound) => Ok(bound),
        Err(_) => Err(CutFault::Wide {
            place: FaultPlace::Entry(combo.rows.len() + combo.lows.len() + combo.highs.len()),
        }),
    }
}

/// What it comes to that the optimum isn't shown, and nothing stands beside the mark but a point, if there is one.
fn unsolved(mark: Mark, point: Option<Vec<Frac>>) -> Relaxed
    ensures { result ≡ Unsolved mark point None }
{
    Relaxed::Unsolved {
        mark,
        point,
        bound: None,
    }
}

/// What an answer comes to.
fn judged(
    rows: &Rows<'_>,
    program: &Program,
    ids: &[u64],
    bounds: &Bounds,
    found: LpAnswer,
    scratch: &mut Scratch,
) -> Relaxed
    requires fits { Fits (length bounds.now) (lent_of rows.now) }
    requires room { length bounds.now ≤ length scratch.old.row.entries }
    requires columns { length bounds.now ≡ columns program.now }
    requires ids { ids.now ≡ usable_ids bounds.now rows.now.pool.now }
    requires solved { SaysRight (node_program program.now (lent_of rows.now) bounds.now) found }
    ensures relaxed { IsRelaxed program.now (lent_of rows.entry.now) bounds.now
        (length scratch.old.row.entries) result }
    ensures room { length scratch.new.row.entries ≡ length scratch.old.row.entries }
{
    let own = program.rows().len();
    match found {
        LpAnswer::Optimal {
            point,
            mut combo,
            cost,
        } => {
            name_combo(own, ids, &mut combo);
            match checked_cost(rows, program, bounds, &combo, cost, scratch) {
                Ok(bound) => Relaxed::Bound {
                    point,
                    bound,
                    combo,
                },
                Err(fault) => unsolved(Mark::Refused { combo, fault }, Some(point)),
            }
        }
        LpAnswer::Infeasible { mut combo } => {
            name_combo(own, ids, &mut combo);
            match empties(rows, bounds, &combo, scratch) {
                Ok(()) => Relaxed::Empty,
                Err(fault) => unsolved(Mark::Refused { combo, fault }, None),
            }
        }
        LpAnswer::Unbounded { point, ray: _ } => Relaxed::Falls { point },
        LpAnswer::Wide { moves } => unsolved(Mark::Wide { moves }, None),
        LpAnswer::Limit => unsolved(Mark::Limit, None),
    }
}

/// Puts what is near the optimum beside a mark: its bound, and its point where none was found; what has no mark stays
/// as it is.
fn with_beside(relaxed: Relaxed, beside: Beside) -> Relaxed
    ensures { (program : Program) → (lent : Lent) → (box : List Sides) → (columns : ℕ)
        → IsRelaxed program lent box columns relaxed → StandsBeside program lent box beside
        → IsRelaxed program lent box columns result }
{
    match relaxed {
        Relaxed::Unsolved {
            mark,
            point: None,
            ..
        } => Relaxed::Unsolved {
            mark,
            point: beside.point,
            bound: beside.bound,
        },
        Relaxed::Unsolved { mark, point, .. } => Relaxed::Unsolved {
            mark,
            point,
            bound: beside.bound,
        },
        other => other,
    }
}

/// Solves the linear program of a node, over the rows of the pool that may be used in its box, with room for what
/// checks work in. `Err` comes where memory was refused.
fn relaxed_in(
    alloc: Global,
    program: &Program,
    usable: &UsableRows<'_>,
    start: Option<&Start>,
    solver: &mut NodeSolver,
    scratch: &mut Scratch,
) -> Result<(Relaxed, Start), AllocError>
    requires columns { length usable.now.bounds.now ≡ columns program.now }
    requires pool { length usable.now.bounds.now ≡ usable.now.pool.now.columns }
    requires others { map (λ row. row.now) usable.now.rows.items
        ≡ usable_rows usable.now.bounds.now usable.now.pool.now.rows }
    requires ids { usable.now.ids.items ≡ usable_ids usable.now.bounds.now usable.now.pool.now.rows }
    requires room { length usable.now.bounds.now ≤ length scratch.old.row.entries }
    ensures relaxed { IfOk result (λ solved. IsRelaxed program.now
        (record { own = program.now.rows; pool = usable.now.pool.now.rows; cutoff = None }) usable.now.bounds.now
        (length scratch.old.row.entries) solved.0) }
    ensures room { length scratch.new.row.entries ≡ length scratch.old.row.entries }
{
    let beside = match by_guess(alloc, &mut solver.basis, program, usable, scratch)? {
        Guessed::Shown(relaxed) => {
            let variables = program.columns() + program.rows().len() + usable.rows.len();
            return match start_at(alloc, &solver.basis, variables) {
                Ok(last) => Ok((relaxed, last)),
                Err(error) => {
                    drop(relaxed);
                    Err(error)
                }
            };
        }
        Guessed::Beside(beside) => beside,
    };
    match solved(alloc, &mut solver.solver, program, usable, start) {
        Err(error) => {
            drop(beside);
            Err(error)
        }
        Ok((found, last)) => {
            let lent = Rows {
                own: program.rows(),
                pool: usable.pool.rows(),
                cutoff: &None,
                whole: program.whole(),
            };
            let ids = usable.ids.as_slice();
            let relaxed = judged(&lent, program, ids, usable.bounds, found, scratch);
            Ok((with_beside(relaxed, beside), last))
        }
    }
}

/// Solves the linear program of a node over the rows of the program and those of the pool that may be used in its
/// box. A basis that is guessed, from that of the node before, answers where what it shows is checked. Else there is a
/// start: that of a node above, as its last one, or the first state. It makes at most 2,000 moves and two for each of
/// its columns and rows by a rule that makes few; where that has no answer, as many from the first state; and where
/// that has none, at most 10,000 by Bland's rule. What that shows is checked. `Bound` comes with a point of
/// least cost and that cost with the constant, where the check accepts its combination; `Empty` where there is no
/// point, and the check accepts that; `Falls` where the cost falls without end from a point; and `Unsolved` with its
/// mark in all other cases, with what the basis that was guessed bounds the cost by, and a point by it, if there are
/// such. `Near` comes before these where costs are whole: a point by the basis, and a bound that is at least its cost
/// once it is rounded up, so that it is as good as the optimum. Rows behind those that
/// a start knows are basic, and of one that knows more the others are passed over. Beside what it came to stands where
/// the variables are then, to be the start of the nodes below. `Err` comes where memory was refused.
pub fn relax_from(
    alloc: Global,
    program: &Program,
    pool: &RowPool,
    bounds: &Bounds,
    start: Option<&Start>,
    solver: &mut NodeSolver,
) -> Result<(Relaxed, Start), AllocError>
    requires columns { length bounds.now ≡ columns program.now }
    requires pool { length bounds.now ≡ pool.now.columns }
    ensures { IfOk result (λ solved. IsRelaxed program.now
        (record { own = program.now.rows; pool = pool.now.rows; cutoff = None }) bounds.now
        (columns program.now) solved.0) }
{
    let usable = UsableRows::gather(alloc, pool, bounds)?;
    let relaxed = match solver.room(alloc, program.columns()) {
        Ok(mut scratch) => {
            let relaxed = relaxed_in(alloc, program, &usable, start, solver, &mut scratch);
            solver.keep(scratch);
            relaxed
        }
        Err(error) => Err(error),
    };
    drop(usable);
    relaxed
}
