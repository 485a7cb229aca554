//! What is left of a program at the end of presolve, and the way back from it.
ghost use Rattle.std.specs.Prelude.{◌≡◌, ◌≤◌, None, IfOk, length, replicate};
ghost use Rattle.cip_problem.specs.Limits.{most_columns};
ghost use Rattle.cip_presolve.specs.Programs.{program_from};
ghost use Rattle.cip_presolve.specs.NarrowedPrograms.{IsStep, IsExactStep};
ghost use Rattle.cip_presolve.specs.DraftParts.{IsDraft, unnamed};
ghost use Rattle.cip_presolve.specs.ColumnsOut.{MayAllGo, SourcesStay};
ghost use Rattle.cip_presolve.specs.SpentRows.{RowsGo};
ghost use Rattle.cip_presolve.specs.EntriesLeft.{gone_of, old_numbers};
ghost use Rattle.cip_presolve.specs.LeftProgram.{dropped_rows, left_program, left_columns, CanLeave};
ghost use Rattle.cip_presolve.specs.PresolvedPrograms.{IsPresolved, IsExactlyPresolved, IsUnchanged, counted};

use crate::copies::{copied_names, names_left};
use crate::drafts::Draft;
use crate::forms::ColumnForm;
use crate::leaving::forms_out;
use crate::left_lists::{
    bounds_left, choices_left, gone_of, items_left, numbers_kept, numbers_left,
};
use crate::left_rows::{dropped_rows, is_dropped, move_all};
use crate::row_copies::copied_rows;
use crate::steps::Steps;
use cip_model::{Parts, Program};
use std::alloc::{AllocError, Global};

/// A reduced program, how its points come back, and for each of its columns the old number.
#[derive(Drop)]
pub struct Presolved {
    pub reduced: Program,
    pub steps: Steps,
    pub kept: Vec<u32>,
}

/// What is left of a program in work, but for the rows, with the names of another program.
fn columns_left(
    alloc: Global,
    program: &Program,
    draft: &Draft,
    gone: &[bool],
) -> Result<Parts, AllocError>
    requires { CanLeave program.now draft.now gone.now }
    ensures { IfOk result (λ parts. program_from parts ≡ left_columns program.now draft.now gone.now) }
{
    let Ok(costs) = items_left(alloc, gone, draft.costs()) else {
        return Err(AllocError);
    };
    let Ok(whole) = items_left(alloc, gone, draft.whole()) else {
        return Err(AllocError);
    };
    let Ok(bounds) = bounds_left(alloc, gone, draft.bounds().as_slice()) else {
        return Err(AllocError);
    };
    let Ok(choices) = choices_left(alloc, gone, draft.choices().as_slice()) else {
        return Err(AllocError);
    };
    let Ok(dropped) = dropped_rows(alloc, gone, draft.rows()) else {
        return Err(AllocError);
    };
    let Ok(column_names) = names_left(alloc, gone, program.column_names()) else {
        return Err(AllocError);
    };
    let Ok(row_names) = names_left(alloc, dropped.as_slice(), program.row_names()) else {
        drop(column_names);
        return Err(AllocError);
    };
    Ok(Parts {
        column_names,
        row_names,
        rows: Vec::new(alloc),
        costs,
        constant: draft.constant(),
        sense: program.sense(),
        whole,
        bounds,
        choices,
    })
}

/// What is left of a program in work, with the names of another program.
fn left(
    alloc: Global,
    program: &Program,
    draft: Draft,
    gone: &[bool],
) -> Result<Program, AllocError>
    requires { CanLeave program.now draft gone.now }
    ensures { IfOk result (λ reduced. reduced ≡ left_program program.now draft gone.now) }
{
    let Ok(numbers) = numbers_left(alloc, gone) else {
        drop(draft);
        return Err(AllocError);
    };
    let Ok(mut parts) = columns_left(alloc, program, &draft, gone) else {
        drop(draft);
        return Err(AllocError);
    };
    let mut rows = draft.into_rows();
    rows.retain(|row| !is_dropped(gone, row));
    match move_all(alloc, &mut rows, numbers.as_slice()) {
        Ok(()) => {
            parts.rows = rows;
            Ok(Program::new(parts))
        }
        Err(error) => {
            drop(rows);
            drop(parts);
            Err(error)
        }
    }
}

/// The columns that are left out, by their forms and by flags, with the old numbers of those that stay, and the whole
/// columns of the program.
#[derive(Drop)]
struct LeftOut {
    forms: Vec<Option<ColumnForm>>,
    gone: Vec<bool>,
    kept: Vec<u32>,
    whole: Vec<bool>,
}

/// The columns that are left out of a program in work. `Err` comes where a growth was refused.
#[tactic(auto, using(crate::proofs::LeftPairs::compacting))]
fn left_out(
    alloc: Global,
    program: &Program,
    draft: &Draft,
    equalities: bool,
) -> Result<LeftOut, AllocError>
    requires { IsDraft draft.now }
    ensures may { IfOk result (λ out. MayAllGo draft.now out.forms.items) }
    ensures sources { IfOk result (λ out. SourcesStay out.forms.items) }
    ensures rows { IfOk result (λ out. RowsGo out.forms.items draft.now.rows) }
    ensures gone { IfOk result (λ out. out.gone.items ≡ gone_of out.forms.items) }
    ensures lists { IfOk result (λ out. (out.kept.items ≡ old_numbers 0 out.gone.items)
        × (out.whole.items ≡ program.now.integral)) }
{
    let Ok(forms) = forms_out(alloc, draft, equalities) else {
        return Err(AllocError);
    };
    let Ok(gone) = gone_of(alloc, forms.as_slice()) else {
        return Err(AllocError);
    };
    let Ok(kept) = numbers_kept(alloc, gone.as_slice()) else {
        return Err(AllocError);
    };
    let Ok(whole) = program.whole().to_vec(alloc) else {
        return Err(AllocError);
    };
    Ok(LeftOut {
        forms,
        gone,
        kept,
        whole,
    })
}

/// What presolve gives at the end of its steps: the columns of one value that no row has are left out, and where
/// equalities are taken, those whose value is a form of another one's by the one row that has them, with this row; so
/// are rows that say nothing. `Err` comes where a growth was refused.
#[tactic(auto, using(crate::proofs::LeftPairs::compacting))]
pub fn compacted(
    alloc: Global,
    program: &Program,
    draft: Draft,
    equalities: bool,
) -> Result<Presolved, AllocError>
    requires step { IsStep (unnamed program.now) draft }
    requires rows { length draft.rows ≡ length program.now.rows }
    ensures pair { IfOk result (IsPresolved program.now) }
    ensures exact { IfOk result (λ presolved. IsExactStep (unnamed program.now) draft
        → IsExactlyPresolved program.now presolved) }
{
    let _bounds = draft.bounds();
    let _columns = program.columns();
    let Ok(out) = left_out(alloc, program, &draft, equalities) else {
        drop(draft);
        return Err(AllocError);
    };
    match left(alloc, program, draft, out.gone.as_slice()) {
        Ok(reduced) => {
            let LeftOut {
                forms,
                kept,
                whole,
                ..
            } = out;
            Ok(Presolved {
                reduced,
                steps: Steps::new(forms, whole),
                kept,
            })
        }
        Err(error) => {
            drop(out);
            Err(error)
        }
    }
}

/// The same program by itself.
fn copied(alloc: Global, program: &Program) -> Result<Program, AllocError>
    ensures { IfOk result (λ copy. copy ≡ program.now) }
{
    let Ok(costs) = program.costs().to_vec(alloc) else {
        return Err(AllocError);
    };
    let Ok(whole) = program.whole().to_vec(alloc) else {
        return Err(AllocError);
    };
    let Ok(bounds) = program.bounds().copied(alloc) else {
        return Err(AllocError);
    };
    let Ok(choices) = program.choices().copied(alloc) else {
        return Err(AllocError);
    };
    let Ok(rows) = copied_rows(alloc, program.rows()) else {
        return Err(AllocError);
    };
    let Ok(column_names) = copied_names(alloc, program.column_names()) else {
        drop(rows);
        return Err(AllocError);
    };
    let Ok(row_names) = copied_names(alloc, program.row_names()) else {
        drop(rows);
        drop(column_names);
        return Err(AllocError);
    };
    Ok(Program::new(Parts {
        column_names,
        row_names,
        rows,
        costs,
        constant: program.constant(),
        sense: program.sense(),
        whole,
        bounds,
        choices,
    }))
}

/// The numbers of so many columns.
#[tactic(auto, using(crate::proofs::Unchanged::one_counted))]
fn numbers(alloc: Global, columns: usize) -> Result<Vec<u32>, AllocError>
    requires { columns ≤ most_columns }
    ensures { IfOk result (λ numbers. numbers.items ≡ counted 0 columns) }
{
    let mut numbers = Vec::new(alloc);
    for column in 0..columns {
        numbers.push(column as u32)?;
    }
    Ok(numbers)
}

/// That no column of so many is gone.
fn none_gone(alloc: Global, columns: usize) -> Result<Vec<Option<ColumnForm>>, AllocError>
    ensures { IfOk result (λ forms. forms.items ≡ replicate columns None) }
{
    let mut forms = Vec::new(alloc);
    for _ in 0..columns {
        forms.push(None)?;
    }
    Ok(forms)
}

impl Presolved {
    /// The program itself, without steps, for a run that doesn't presolve. `Err` comes where a growth was refused.
    #[tactic(auto, using(crate::proofs::Unchanged::unchanged))]
    pub fn same(alloc: Global, program: &Program) -> Result<Presolved, AllocError>
        ensures pair { IfOk result (IsPresolved program.now) }
        ensures exact { IfOk result (IsExactlyPresolved program.now) }
        ensures unchanged { IfOk result (IsUnchanged program.now) }
    {
        let Ok(whole) = program.whole().to_vec(alloc) else {
            return Err(AllocError);
        };
        let Ok(forms) = none_gone(alloc, program.columns()) else {
            return Err(AllocError);
        };
        let Ok(kept) = numbers(alloc, program.columns()) else {
            return Err(AllocError);
        };
        let Ok(reduced) = copied(alloc, program) else {
            return Err(AllocError);
        };
        Ok(Presolved {
            reduced,
            steps: Steps::new(forms, whole),
            kept,
        })
    }
}
