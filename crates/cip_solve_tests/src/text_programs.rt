//! Two texts of free MPS, and programs of such texts.
use cip_frac::Frac;
use cip_model::{Program, Verdict};
use cip_mps::read_mps;
use std::alloc::Global;

/// Three rows and three whole columns; each row has entries of all columns.
pub(crate) const JOINED: &str =
    "NAME chvatal\nOBJSENSE\n MAX\nROWS\n N COST\n L R1\n L R2\n L R3\nCOLUMNS\n\
    \x20M1 'MARKER' 'INTORG'\n a COST 5 R1 2\n a R2 4 R3 3\n b COST 4 R1 3\n b R2 1 R3 4\n c COST 3 R1 1\n\
    \x20c R2 2 R3 2\n M2 'MARKER' 'INTEND'\nRHS\n RHS R1 5 R2 11\n RHS R3 8\nBOUNDS\n UP B a 10\n UP B b 10\n\
    \x20UP B c 10\nENDATA\n";

/// Three rows on columns of their own; the second has two.
pub(crate) const APART: &str =
    "ROWS\n N COST\n L R1\n L R2\n L R3\nCOLUMNS\n M1 'MARKER' 'INTORG'\n\
    \x20a COST 1 R1 1\n b COST 1 R2 1\n c R2 2\n d COST 1 R3 1\nENDATA\n";

/// The program of a text.
pub(crate) fn program_of(alloc: Global, text: &str) -> Option<Program> {
    match read_mps(alloc, text.as_bytes()) {
        Ok(program) => Some(program),
        Err(_) => None,
    }
}

/// The cost of a point, in the minimised form; none where it is not feasible.
pub(crate) fn cost_at(program: &Program, point: &[Frac]) -> Option<i128> {
    if point.len() != program.columns() {
        return None;
    }
    match program.check(point) {
        Verdict::Feasible(cost) => Some(cost.numerator()),
        _ => None,
    }
}
