//! Checking a point and reporting.
ghost use Rattle.std.specs.Prelude.{◌≡◌, length};
ghost use Rattle.cip_problem.specs.WellFormed.{columns};
ghost use Rattle.cip_model.specs.Verdicts.{verdict_of};
ghost use Rattle.cip_model.specs.Meaning.{VerdictHolds};
ghost use Rattle.cip_search.specs.Checks as texts;
ghost use Rattle.cip_main.specs.Checking.{checked};
ghost use Rattle.cip_main.specs.Saying.{Says};

use cip_frac::Frac;
use cip_io::{Failed, Sink};
use cip_model::Program;
use cip_report::{check_status, report_check};

/// Checks a point in a program, and writes the verdict; its status, or 5 where the sink failed.
pub fn check_and_report<K: Sink>(program: &Program, point: &[Frac], out: &mut K) -> u8
    requires { length point.now ≡ columns program.now }
    ensures says { Says (K.tells out.old) (K.tells out.new) (texts.check_text (checked program.now point.now))
        (texts.check_status (checked program.now point.now)) result }
    ensures holds { VerdictHolds program.now point.now (verdict_of program.now point.now) }
{
    let verdict = program.check(point);
    match report_check(program, point, &verdict, out) {
        Ok(()) => check_status(&verdict),
        Err(Failed) => 5,
    }
}
