//! Presolve.
ghost use Rattle.std.specs.Prelude.{◌≡◌, IfOk, length};
ghost use Rattle.cip_search.specs.NarrowedPrograms.{IsStep, IsExactStep};
ghost use Rattle.cip_presolve.specs.DraftParts.{unnamed};
ghost use Rattle.cip_presolve.specs.RoundEnds.{RoundEndsRightly};
ghost use Rattle.cip_presolve.specs.Presolving.{PresolveIsRight, PresolveAllIsRight, PresolvedLeadsBack};

use crate::drafts::Draft;
use crate::left_programs::{Presolved, compacted};
use crate::queues::Work;
use crate::rounds::{settle, take_rounds};
use crate::row_looks::{Place, RoundEnd};
use cip_model::Program;
use std::alloc::{AllocError, Global};

/// What presolve comes to.
#[derive(Drop)]
pub enum PresolveEnd {
    /// The program may be solved in place of the one that was given.
    Reduced(Presolved),
    /// No point is feasible, as this row or column shows.
    NoPoint { place: Place },
}

/// What presolve comes to where its steps left this program in work and came to this end. `Err` comes where a growth
/// was refused.
fn ended(
    alloc: Global,
    program: &Program,
    draft: Draft,
    end: RoundEnd,
    equalities: bool,
) -> Result<PresolveEnd, AllocError>
    requires step { IsStep (unnamed program.now) draft }
    requires rows { length draft.rows ≡ length program.now.rows }
    requires end { RoundEndsRightly draft end }
    ensures right { IfOk result (PresolveIsRight program.now) }
    ensures exact { IfOk result (λ found. IsExactStep (unnamed program.now) draft
        → PresolveAllIsRight program.now found) }
{
    match end {
        RoundEnd::Open => match compacted(alloc, program, draft, equalities) {
            Ok(presolved) => Ok(PresolveEnd::Reduced(presolved)),
            Err(error) => Err(error),
        },
        RoundEnd::NoPoint { place } => {
            drop(draft);
            Ok(PresolveEnd::NoPoint { place })
        }
    }
}

/// Takes the steps of presolve until none applies, at most 1,000,000. `NoPoint` names a row or a column at which it was
/// found that no point is feasible. `Err` comes where a growth was refused.
pub fn presolve(alloc: Global, program: &Program) -> Result<PresolveEnd, AllocError>
    ensures { IfOk result (PresolveIsRight program.now) }
{
    let _columns = program.columns();
    let Ok(mut draft) = Draft::new(alloc, program) else {
        return Err(AllocError);
    };
    let Ok(mut work) = Work::new(alloc, draft.rows(), draft.bounds().len()) else {
        drop(draft);
        return Err(AllocError);
    };
    let told = take_rounds(alloc, &mut draft, &mut work);
    drop(work);
    let Ok(end) = told else {
        drop(draft);
        return Err(AllocError);
    };
    ended(alloc, program, draft, end, true)
}

/// Takes those steps of presolve by which no feasible point is lost, as `presolve` does: all but dual fixing, and no
/// equality of two terms.
pub fn presolve_all(alloc: Global, program: &Program) -> Result<PresolveEnd, AllocError>
    ensures { IfOk result (PresolveAllIsRight program.now) }
{
    let _columns = program.columns();
    let Ok(mut draft) = Draft::new(alloc, program) else {
        return Err(AllocError);
    };
    let Ok(mut work) = Work::new(alloc, draft.rows(), draft.bounds().len()) else {
        drop(draft);
        return Err(AllocError);
    };
    let told = settle(alloc, &mut draft, &mut work);
    drop(work);
    let Ok(end) = told else {
        drop(draft);
        return Err(AllocError);
    };
    ended(alloc, program, draft, end, false)
}

/// A program that presolve reduced may be searched in place of the program: points and leaves come back by the steps.
pub fn presolved_leads_back()
    ensures { PresolvedLeadsBack }
{}
