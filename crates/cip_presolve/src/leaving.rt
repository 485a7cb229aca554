//! The forms of the columns that are left out.
ghost use Rattle.std.specs.Prelude.{IfOk};
ghost use Rattle.cip_presolve.specs.ColumnsOut.{MayAllGo, SourcesStay};
ghost use Rattle.cip_presolve.specs.SpentRows.{RowsGo};

use crate::candidates::{add_forms, values_out};
use crate::drafts::Draft;
use crate::forms::ColumnForm;
use crate::staying::{keep_rows, keep_sources};
use std::alloc::{AllocError, Global};

/// The forms of the columns that are left out of a program in work: each of them may be, the sources of the forms stay,
/// and each row stands on columns that stay or gives a column that is left out its form. Where equalities aren't taken,
/// those of one value alone are left out. `Err` where the memory for the forms was refused.
#[tactic(auto, using(crate::proofs::StayingColumns::fewer_go))]
pub fn forms_out(
    alloc: Global,
    draft: &Draft,
    equalities: bool,
) -> Result<Vec<Option<ColumnForm>>, AllocError>
    ensures may { IfOk result (λ forms. MayAllGo draft.now forms.items) }
    ensures sources { IfOk result (λ forms. SourcesStay forms.items) }
    ensures rows { IfOk result (λ forms. RowsGo forms.items draft.now.rows) }
{
    let _bounds = draft.bounds();
    let Ok(mut forms) = values_out(alloc, draft) else {
        return Err(AllocError);
    };
    let Ok(()) = add_forms(alloc, draft, &mut forms, equalities) else {
        return Err(AllocError);
    };
    keep_sources(&mut forms);
    keep_rows(&mut forms, draft.rows());
    Ok(forms)
}
