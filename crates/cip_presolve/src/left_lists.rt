//! The lists of a program without the entries of columns that are gone.
ghost use Rattle.std.specs.Prelude.{◌≡◌, ◌≤◌, IfOk, length};
ghost use Rattle.cip_problem.specs.Limits.{most_columns};
ghost use Rattle.cip_presolve.specs.EntriesLeft.{gone_of, entries_left, old_numbers, new_numbers};

use crate::forms::ColumnForm;
use cip_lin::{Bounds, Choice, Choices, Sides};
use std::alloc::{AllocError, Global};

/// Whether each column is gone: whether it has a form. `Err` where the memory for it was refused.
pub(crate) fn gone_of(alloc: Global, forms: &[Option<ColumnForm>]) -> Result<Vec<bool>, AllocError>
    ensures { IfOk result (λ gone. gone.items ≡ gone_of forms.now) }
{
    let mut gone = Vec::new(alloc);
    for form in forms {
        gone.push(form.is_some())?;
    }
    Ok(gone)
}

/// The items of the columns that stay; `Err` where the memory for them was refused.
pub(crate) fn items_left<T: Copy + Drop>(
    alloc: Global,
    gone: &[bool],
    items: &[T],
) -> Result<Vec<T>, AllocError>
    requires { length gone.now ≡ length items.now }
    ensures { IfOk result (λ left. left.items ≡ entries_left gone.now items.now) }
{
    let mut left = Vec::new(alloc);
    for at in 0..gone.len() {
        if gone[at] {
            continue;
        }
        left.push(items[at])?;
    }
    Ok(left)
}

/// The sides of the columns that stay; `Err` where the memory for them was refused.
pub(crate) fn bounds_left(
    alloc: Global,
    gone: &[bool],
    sides: &[Sides],
) -> Result<Bounds, AllocError>
    requires { length gone.now ≡ length sides.now }
    ensures { IfOk result (λ left. left ≡ entries_left gone.now sides.now) }
{
    let mut left = Bounds::new(alloc, 0)?;
    for at in 0..gone.len() {
        if gone[at] {
            continue;
        }
        left.push(sides[at])?;
    }
    Ok(left)
}

/// The choices of the columns that stay; columns past the end of the choices are plain. `Err` where the memory for them
/// was refused.
pub(crate) fn choices_left(
    alloc: Global,
    gone: &[bool],
    choices: &[Choice],
) -> Result<Choices, AllocError>
    ensures { IfOk result (λ left. left ≡ entries_left gone.now choices.now) }
{
    let mut left = Choices::new(alloc);
    for at in 0..gone.len().min(choices.len()) {
        if gone[at] {
            continue;
        }
        left.push(choices[at])?;
    }
    Ok(left)
}

/// The old numbers of the columns that stay; `Err` where the memory for them was refused.
pub(crate) fn numbers_kept(alloc: Global, gone: &[bool]) -> Result<Vec<u32>, AllocError>
    requires { length gone.now ≤ most_columns }
    ensures { IfOk result (λ kept. kept.items ≡ old_numbers 0 gone.now) }
{
    let mut kept = Vec::new(alloc);
    for at in 0..gone.len() {
        if gone[at] {
            continue;
        }
        kept.push(at as u32)?;
    }
    Ok(kept)
}

/// For each column how many that stay stand before it; `Err` where the memory for them was refused.
pub(crate) fn numbers_left(alloc: Global, gone: &[bool]) -> Result<Vec<u32>, AllocError>
    requires { length gone.now ≤ most_columns }
    ensures { IfOk result (λ numbers. numbers.items ≡ new_numbers 0 gone.now) }
{
    let mut numbers = Vec::new(alloc);
    let mut count = 0;
    for at in 0..gone.len() {
        numbers.push(count)?;
        if gone[at] {
            continue;
        }
        count += 1;
    }
    Ok(numbers)
}
