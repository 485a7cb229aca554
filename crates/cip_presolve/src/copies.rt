//! Names, copied.
ghost use Rattle.std.specs.Prelude.{◌≡◌, ◌++◌, ◌∷◌, [], None, IfOk, OnOk, length};
ghost use Rattle.cip_problem.specs.Names.{number_of};
ghost use Rattle.cip_presolve.specs.EntriesLeft.{entries_left};

use cip_model::Names;
use std::alloc::{AllocError, Global};

/// Puts a copy of a name that is not there yet at the end; `Err` where the memory for it was refused.
fn add_copy(alloc: Global, names: &mut Names, name: &[u8]) -> Result<(), AllocError>
    requires { number_of names.old name.now ≡ None }
    ensures { OnOk result (names.new ≡ names.old ++ name.now ∷ []) }
{
    let copy = name.to_vec(alloc)?;
    names.add(copy)?;
    Ok(())
}

/// The same names by themselves; `Err` where the memory for them was refused.
#[tactic(auto, using(crate::proofs::CopiedParts::copying))]
pub(crate) fn copied_names(alloc: Global, names: &Names) -> Result<Names, AllocError>
    ensures { IfOk result (λ copy. copy ≡ names.now) }
{
    names.stand_once();
    let mut copy = Names::new(alloc);
    for number in 0..names.len() {
        add_copy(alloc, &mut copy, names.name(number))?;
    }
    Ok(copy)
}

/// The names of the entries that aren't gone; `Err` where the memory for them was refused.
#[tactic(auto, using(crate::proofs::CopiedParts::names_stand))]
pub(crate) fn names_left(alloc: Global, gone: &[bool], names: &Names) -> Result<Names, AllocError>
    requires { length gone.now ≡ length names.now }
    ensures { IfOk result (λ left. left ≡ entries_left gone.now names.now) }
{
    names.stand_once();
    let mut left = Names::new(alloc);
    for at in 0..gone.len() {
        if gone[at] {
            continue;
        }
        add_copy(alloc, &mut left, names.name(at))?;
    }
    Ok(left)
}
