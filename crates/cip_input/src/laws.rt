//! The law of the programs that texts of models have.
// The function does nothing. Its contract is a law of the definitions, so that the check proves it.
ghost use Rattle.cip_input.specs.LimitedModels.{ProgramsAreLimited};

use cip_text_rules::lp_texts::lp_programs_are_well_formed;
use cip_text_rules::mps_texts::programs_are_well_formed;
use cip_text_rules::step_laws::values_are_tested;

/// The program of a text of a model is well-formed, and each side of a column that is there has a size below 10^20, as
/// have those that a semi-continuous column has of its own.
pub fn programs_are_limited()
    ensures { ProgramsAreLimited }
{
    programs_are_well_formed();
    lp_programs_are_well_formed();
    values_are_tested();
}
