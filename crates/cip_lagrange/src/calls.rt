//! The check of a tree, in the box that it is given.
ghost use Rattle.std.specs.Prelude.{◌≡◌, ◌≤◌, length, IfOk};
ghost use Rattle.cip_cert.specs.Lent.{lent_of, Fits};
ghost use Rattle.cip_lagrange.specs.TreeOutcomes.{node_in, tree_outcome};
ghost use Rattle.cip_lagrange.specs.TreeMeaning.{TreeFollows};

use crate::answers::{TreeBound, TreeFault};
use crate::regions::TreeRegion;
use crate::trees::bound_at;
use cip_cert::{BoundTree, Rows, Scratch};
use cip_frac::Frac;

/// What a tree shows of the points of a box with choices at which the rows hold, whose whole columns have whole values,
/// and whose semi-continuous ones have a value that their choice allows: the least of its leaves' bounds, each checked
/// in the box that its path leaves, or that there is no such point, where each leaf is empty. A fault is the first in
/// the order of the tree. It takes no memory; box and choices are left as they were, and the scratch's row holds
/// anything then.
pub fn tree_bound(
    rows: &Rows<'_>,
    region: &mut TreeRegion,
    costs: &[Frac],
    tree: &BoundTree,
    scratch: &mut Scratch,
) -> Result<TreeBound, TreeFault>
    requires fits { Fits (length region.old.bounds) (lent_of rows.now) }
    requires room { length region.old.bounds ≤ length scratch.old.row.entries }
    requires costs { length costs.now ≡ length region.old.bounds }
    requires flags { length rows.now.whole.now ≡ length region.old.bounds }
    ensures steps { result ≡ tree_outcome (record {
      lent = lent_of rows.entry.now;
      integral = rows.entry.now.whole.now;
      room = length scratch.old.row.entries;
      costs = costs.now;
    })
        1 tree.now (node_in region.old) }
    ensures follows { IfOk result (TreeFollows (lent_of rows.entry.now) rows.entry.now.whole.now costs.now
        (node_in region.old)) }
    ensures bounds { region.new.bounds ≡ region.old.bounds }
    ensures choices { region.new.choices ≡ region.old.choices }
    ensures columns { length scratch.new.row.entries ≡ length scratch.old.row.entries }
    ensures box_kept { scratch.new.bounds ≡ scratch.old.bounds }
{
    bound_at(rows, costs, region, 1, tree, &mut scratch.row)
}
