//! Numbers by groups.
ghost use Rattle.std.specs.Prelude.{◌≡◌, ◌<◌, ◌≤◌, ◌++◌, ◌∷◌, [], length, vec_len, replicate, All, IfSome, IfOk, OnOk, slice_set, slice_index_or};
ghost use Rattle.cip_problem.specs.Limits.{most_columns};
ghost use Rattle.cip_model.specs.NumberLists.{lists_of};

use std::alloc::{AllocError, Global};

/// Numbers by their groups, each by rising number, and the numbers of no group.
#[derive(Drop)]
pub(crate) struct Groups {
    pub(crate) groups: Vec<Vec<u32>>,
    pub(crate) rest: Vec<u32>,
}

/// So many groups without numbers.
fn empty_groups(alloc: Global, count: usize) -> Result<Vec<Vec<u32>>, AllocError>
    ensures { IfOk result (λ groups. lists_of groups.items ≡ replicate count []) }
{
    let mut groups = Vec::new(alloc);
    while groups.len() < count {
        groups.push(Vec::new(alloc))?;
    }
    Ok(groups)
}

/// Puts a number at the end of a group.
fn put(groups: &mut Vec<Vec<u32>>, group: usize, number: u32) -> Result<(), AllocError>
    requires { group < vec_len groups.old }
    ensures { OnOk result (lists_of groups.new.items ≡ slice_set (lists_of groups.old.items) group
        (slice_index_or (lists_of groups.old.items) group [] ++ number ∷ [])) }
{
    let chosen = &mut groups[group];
    chosen.push(number)?;
    Ok(())
}

impl Groups {
    ghost use Rattle.cip_model.specs.Grouped.{IsGrouped};

    /// The groups of the numbers from 0 on, by the group of each, if it has one.
    pub(crate) fn of(
        alloc: Global,
        count: usize,
        owners: &[Option<u32>],
    ) -> Result<Groups, AllocError>
        requires below { All (λ owner. IfSome owner (λ group. group < count)) owners.now }
        requires few { length owners.now ≤ most_columns }
        ensures { IfOk result (IsGrouped count owners.now) }
    {
        let mut groups = empty_groups(alloc, count)?;
        let mut rest = Vec::new(alloc);
        for (number, owner) in owners.iter().enumerate() {
            match owner {
                None => rest.push(number as u32)?,
                Some(group) => put(&mut groups, *group as usize, number as u32)?,
            }
        }
        Ok(Groups { groups, rest })
    }
}
