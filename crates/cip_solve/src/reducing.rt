//! What is searched in place of a program: what presolve makes of it, or the program itself.
ghost use Rattle.std.specs.Prelude.{◌^◌, IfOk, IsTrue};
ghost use Rattle.cip_node_rules.specs.SplitRules.{AreNear};
ghost use Rattle.cip_solve.specs.Beginning.{AreNearColumns};
ghost use Rattle.cip_solve.specs.Reducing.{IsReducedFor};

use cip_calls::Presolved;
use cip_lin::Sides;
use cip_model::Program;
use cip_presolve::{PresolveEnd, presolve as reduce};
use std::alloc::{AllocError, Global};

/// Whether the whole numbers next to both sides of a column, inward, have sizes of at most 2^100, where they are there.
fn are_near(sides: Sides) -> bool
    ensures { IsTrue result → AreNear (2 ^ 100) sides }
{
    if let Some(low) = sides.low {
        if low.ceil().unsigned_abs() > 1 << 100 {
            return false;
        }
    }
    match sides.high {
        None => true,
        Some(high) => high.floor().unsigned_abs() <= 1 << 100,
    }
}

/// Whether the sides of each whole column are so near, so that a search can begin with them.
fn has_near_columns(program: &Program) -> bool
    ensures { IsTrue result → AreNearColumns program.now }
{
    let columns = program.columns();
    let whole = program.whole();
    for column in 0..columns as u32 {
        if whole[column as usize] && !are_near(program.bounds().sides(column)) {
            return false;
        }
    }
    true
}

/// What is searched in place of a program: what presolve makes of it, where it may be presolved and the sides of whole
/// columns of that are near enough, and else the program itself; `None` where presolve finds that no point is feasible.
/// `Err` comes where memory was refused.
pub(crate) fn reduced_for(
    alloc: Global,
    program: &Program,
    presolve: bool,
) -> Result<Option<Presolved>, AllocError>
    requires { AreNearColumns program.now }
    ensures { IfOk result (IsReducedFor presolve program.now) }
{
    if presolve {
        match reduce(alloc, program)? {
            PresolveEnd::NoPoint { .. } => return Ok(None),
            PresolveEnd::Reduced(presolved) => {
                if has_near_columns(&presolved.reduced) {
                    return Ok(Some(presolved));
                }
                drop(presolved);
            }
        }
    }
    Ok(Some(Presolved::same(alloc, program)?))
}
