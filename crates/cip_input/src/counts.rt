//! How many entries a program has.
ghost use Rattle.std.specs.Prelude.{◌≡◌};
ghost use Rattle.cip_input.specs.Generated.{entries_of};

use cip_model::Program;

/// How many coefficients of a program's rows aren't 0.
pub fn entries(program: &Program) -> usize
    ensures { result ≡ entries_of program.now }
{
    let rows = program.rows();
    let mut entries = 0;
    for row in rows {
        entries += row.terms().len();
    }
    entries
}
