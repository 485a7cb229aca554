//! What presolve took out, and the way back.
ghost use Rattle.std.specs.Prelude.{◌≡◌, IfOk, IfErr};
ghost use Rattle.std.specs.Bool.{OnTrue};
ghost use Rattle.cip_presolve.specs.StepsBack.{point_back, leaf_back, FitsBack, LeafFitsBack};
ghost use Rattle.cip_presolve.specs.PostsolveFaults.{IsPostsolveFault};

use crate::faults::PostsolveFault;
use crate::forms::ColumnForm;
use crate::places::{columns_left, placed, whole_and_left};
use crate::values::{filled, wholes_filled};
use cip_frac::Frac;
use std::alloc::{AllocError, Global};
use std::marker::Model;

/// What presolve took out: of each column of the program the form of its value where it is gone, and whether it is
/// whole.
#[derive(Drop)]
pub struct Steps {
    forms: Vec<Option<ColumnForm>>,
    whole: Vec<bool>,
}

impl Model for Steps {
    ghost use Rattle.cip_presolve.specs.StepsBack.{StepsTaken, steps_code};

    ghost Value = { StepsTaken };

    ghost coded = { steps_code };

    ghost view = { λ s. record { forms = s.forms.items; whole = s.whole.items } };
}

impl Steps {
    /// Steps by the form of each column of the program where it is gone, and whether each one is whole.
    pub fn new(forms: Vec<Option<ColumnForm>>, whole: Vec<bool>) -> Steps
        ensures { result ≡ record { forms = forms.items; whole = whole.items } }
    {
        Steps { forms, whole }
    }
}

/// The point of the program that a point of the reduced program comes back as: a column that stays has its value, and
/// one that is gone that of its form. `Wide` comes exactly where a value of a form isn't in range, or a number that is
/// formed on the way to it; `NoMemory` where a growth was refused.
pub fn postsolve(alloc: Global, steps: &Steps, point: &[Frac]) -> Result<Vec<Frac>, PostsolveFault>
    ensures point { IfOk result (λ whole. whole.items ≡ point_back steps.now point.now) }
    ensures fits { IfOk result (λ whole. FitsBack steps.now point.now) }
    ensures fault { IfErr result (IsPostsolveFault steps.now point.now) }
{
    let forms = steps.forms.as_slice();
    let Ok(left) = columns_left(alloc, forms) else {
        return Err(PostsolveFault::NoMemory);
    };
    let Ok(at) = placed(alloc, left.as_slice(), point) else {
        return Err(PostsolveFault::NoMemory);
    };
    let Ok(found) = filled(alloc, forms, at.as_slice()) else {
        return Err(PostsolveFault::NoMemory);
    };
    match found {
        Some(whole) => Ok(whole),
        None => Err(PostsolveFault::Wide),
    }
}

/// Whether whole values come back, as `whole_part` wants it: no value of a form overflows there, nor that of a
/// continuous column. `Err` comes where a growth was refused.
#[tactic(auto, using(crate::proofs::PointsBack::wholes_coming_back))]
pub fn leaf_fits(alloc: Global, steps: &Steps, wholes: &[Frac]) -> Result<bool, AllocError>
    ensures { IfOk result (λ fits. OnTrue fits (LeafFitsBack steps.now wholes.now)) }
{
    let forms = steps.forms.as_slice();
    let left = whole_and_left(alloc, forms, steps.whole.as_slice())?;
    let at = placed(alloc, left.as_slice(), wholes)?;
    match filled(alloc, forms, at.as_slice())? {
        Some(whole) => {
            drop(whole);
            Ok(true)
        }
        None => Ok(false),
    }
}

/// The values of the program's whole columns that those of the reduced program's whole columns come back as, where none
/// of them overflows. `Err` comes where a growth was refused.
#[tactic(auto, using(crate::proofs::PointsBack::wholes_coming_back))]
pub fn whole_part(alloc: Global, steps: &Steps, wholes: &[Frac]) -> Result<Vec<Frac>, AllocError>
    requires { LeafFitsBack steps.now wholes.now }
    ensures { IfOk result (λ whole. whole.items ≡ leaf_back steps.now wholes.now) }
{
    let forms = steps.forms.as_slice();
    let left = whole_and_left(alloc, forms, steps.whole.as_slice())?;
    let at = placed(alloc, left.as_slice(), wholes)?;
    wholes_filled(alloc, forms, steps.whole.as_slice(), at.as_slice())
}
