//! Programs of texts of free MPS.
ghost use Rattle.std.specs.Prelude.{IsTrue};
ghost use Rattle.std.specs.List.{All};
ghost use Rattle.cip_problem.specs.NearSides.{IsNear, HasNearSides};
ghost use Rattle.cip_solve.specs.Beginning.{AreNearColumns};

use cip_frac::Frac;
use cip_lin::Sides;
use cip_model::Program;
use cip_mps::read_mps;
use std::alloc::Global;

/// Minimise -5a - 4b - 3c with 2a + 3b + c <= 5, 4a + b + 2c <= 11 and 3a + 4b + 2c <= 8, each whole from 0 to 10.
pub(crate) const THREE_COLUMNS: &str = "ROWS\n N COST\n L R\n L S\n L T\nCOLUMNS\n\
    \x20a COST -5 R 2\n a S 4 T 3\n b COST -4 R 3\n b S 1 T 4\n c COST -3 R 1\n c S 2 T 2\n\
    RHS\n RHS R 5 S 11\n RHS T 8\nBOUNDS\n UI B a 10\n UI B b 10\n UI B c 10\nENDATA\n";

/// Minimise -2a - b with 2a + 2b <= 3, each 0 or 1.
pub(crate) const TWO_COLUMNS: &str =
    "ROWS\n N COST\n L R\nCOLUMNS\n a COST -2 R 2\n b COST -1 R 2\nRHS\n RHS R 3\n\
    BOUNDS\n BV B a\n BV B b\nENDATA\n";

/// Minimise 3a + 4b with a + b >= 1/2, where a is whole from 0 to 3 and b at least 0.
pub(crate) const MIXED_COLUMNS: &str =
    "ROWS\n N COST\n G R\nCOLUMNS\n a COST 3 R 1\n b COST 4 R 1\nRHS\n RHS R 0.5\n\
    BOUNDS\n UI B a 3\nENDATA\n";

/// The program of a text.
pub(crate) fn program_of(alloc: Global, text: &str) -> Option<Program> {
    match read_mps(alloc, text.as_bytes()) {
        Ok(program) => Some(program),
        Err(_) => None,
    }
}

/// Whether a side, where it is there, has a size below 10^9.
fn is_near(side: Option<Frac>) -> bool
    ensures { IsTrue result → IsNear side }
{
    match side {
        None => true,
        Some(value) => value.abs() < Frac::from(1_000_000_000),
    }
}

/// Whether both sides do.
fn are_near(sides: Sides) -> bool
    ensures { IsTrue result → HasNearSides sides }
{
    is_near(sides.low) && is_near(sides.high)
}

/// Whether the sides of all columns do.
fn has_near_sides(program: &Program) -> bool
    ensures { IsTrue result → All HasNearSides program.now.bounds }
{
    program
        .bounds()
        .as_slice()
        .iter()
        .all(|sides| are_near(*sides))
}

/// Whether a search can begin with these sides.
pub(crate) fn has_near_columns(program: &Program) -> bool
    ensures { IsTrue result → AreNearColumns program.now }
{
    has_near_sides(program)
}
