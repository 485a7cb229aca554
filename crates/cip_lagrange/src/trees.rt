//! The check of a tree.
ghost use Rattle.std.specs.Prelude.{◌≡◌, ◌<◌, ◌≤◌, ◌^◌, ◌+◌, ◌*◌, true, length, Ok, Err};
ghost use Rattle.cip_rational.specs.Rational.{minimum};
ghost use Rattle.cip_cert.specs.Lent.{lent_of, Fits};
ghost use Rattle.cip_lagrange.specs.TreeOutcomes.{node_in, half_of, can_split, lesser_bound, bound_leaf, empty_leaf, tree_outcome};

use crate::answers::{TreeBound, TreeFault};
use crate::regions::{Half, TreeRegion};
use crate::splits::check_split;
use cip_cert::{BoundTree, Rows, SparseRow, empties_over, lower_bound_over};
use cip_frac::Frac;
use cip_lin::Combo;

/// The lesser of two numbers.
fn least(bound: Frac, other: Frac) -> Frac
    ensures { result ≡ minimum bound other }
{
    if bound <= other { bound } else { other }
}

/// The lesser of two bounds; where there is no point, that of the other half.
fn lesser(bound: TreeBound, other: TreeBound) -> TreeBound
    ensures { result ≡ lesser_bound bound other }
{
    let TreeBound::Finite(bound) = bound else {
        return other;
    };
    let TreeBound::Finite(other) = other else {
        return TreeBound::Finite(bound);
    };
    TreeBound::Finite(least(bound, other))
}

/// What a leaf that bounds the costs shows.
fn bound_leaf(
    rows: &Rows<'_>,
    costs: &[Frac],
    region: &TreeRegion,
    node: u128,
    combo: &Combo,
    row: &mut SparseRow,
) -> Result<TreeBound, TreeFault>
    requires fits { Fits (length region.now.bounds) (lent_of rows.now) }
    requires room { length region.now.bounds ≤ length row.old.entries }
    requires costs { length costs.now ≡ length region.now.bounds }
    ensures steps { result ≡ bound_leaf (record {
      lent = lent_of rows.entry.now;
      integral = rows.entry.now.whole.now;
      room = length row.old.entries;
      costs = costs.now;
    })
        node combo.now (node_in region.now) }
    ensures columns { length row.new.entries ≡ length row.old.entries }
{
    match lower_bound_over(rows, &region.bounds, costs, combo, row) {
        Ok(bound) => Ok(TreeBound::Finite(bound)),
        Err(fault) => Err(TreeFault::At { node, fault }),
    }
}

/// What a leaf that has no point shows.
fn empty_leaf(
    rows: &Rows<'_>,
    costs: &[Frac],
    region: &TreeRegion,
    node: u128,
    combo: &Combo,
    row: &mut SparseRow,
) -> Result<TreeBound, TreeFault>
    requires fits { Fits (length region.now.bounds) (lent_of rows.now) }
    requires room { length region.now.bounds ≤ length row.old.entries }
    ensures steps { result ≡ empty_leaf (record {
      lent = lent_of rows.entry.now;
      integral = rows.entry.now.whole.now;
      room = length row.old.entries;
      costs = costs.now;
    })
        node combo.now (node_in region.now) }
    ensures columns { length row.new.entries ≡ length row.old.entries }
{
    let _costs = costs;
    match empties_over(rows, &region.bounds, combo, row) {
        Ok(()) => Ok(TreeBound::NoPoint),
        Err(fault) => Err(TreeFault::At { node, fault }),
    }
}

/// What a tree shows of a half.
#[cycle(trees)]
fn bound_in_half(
    rows: &Rows<'_>,
    costs: &[Frac],
    region: &mut TreeRegion,
    half: Half,
    tree: &BoundTree,
    row: &mut SparseRow,
) -> Result<TreeBound, TreeFault>
    requires fits { Fits (length region.old.bounds) (lent_of rows.now) }
    requires room { length region.old.bounds ≤ length row.old.entries }
    requires costs { length costs.now ≡ length region.old.bounds }
    requires flags { length rows.now.whole.now ≡ length region.old.bounds }
    requires deep { half.node < 2 ^ 65 }
    requires can { can_split rows.now.whole.now (node_in region.old) half.col half.at ≡ true }
    ensures steps { result ≡ tree_outcome (record {
      lent = lent_of rows.entry.now;
      integral = rows.entry.now.whole.now;
      room = length row.old.entries;
      costs = costs.now;
    })
        half.node tree.now (half_of half.is_high (node_in region.old) half.col half.at) }
    ensures bounds { region.new.bounds ≡ region.old.bounds }
    ensures choices { region.new.choices ≡ region.old.choices }
    ensures columns { length row.new.entries ≡ length row.old.entries }
{
    let sides = region.bounds.sides(half.col);
    let choice = region.choices.at(half.col);
    region.enter(half);
    let bound = bound_at(rows, costs, region, half.node, tree, row);
    region.set(half.col, sides, choice);
    bound
}

/// What a tree shows of a node, whose number is below 2^65.
#[cycle(trees)]
pub(crate) fn bound_at(
    rows: &Rows<'_>,
    costs: &[Frac],
    region: &mut TreeRegion,
    node: u128,
    tree: &BoundTree,
    row: &mut SparseRow,
) -> Result<TreeBound, TreeFault>
    requires fits { Fits (length region.old.bounds) (lent_of rows.now) }
    requires room { length region.old.bounds ≤ length row.old.entries }
    requires costs { length costs.now ≡ length region.old.bounds }
    requires flags { length rows.now.whole.now ≡ length region.old.bounds }
    requires deep { node < 2 ^ 65 }
    ensures steps { result ≡ tree_outcome (record {
      lent = lent_of rows.entry.now;
      integral = rows.entry.now.whole.now;
      room = length row.old.entries;
      costs = costs.now;
    })
        node tree.now (node_in region.old) }
    ensures bounds { region.new.bounds ≡ region.old.bounds }
    ensures choices { region.new.choices ≡ region.old.choices }
    ensures columns { length row.new.entries ≡ length row.old.entries }
{
    match tree {
        BoundTree::Bound(combo) => bound_leaf(rows, costs, region, node, combo, row),
        BoundTree::Empty(combo) => empty_leaf(rows, costs, region, node, combo, row),
        BoundTree::Split { col, at, low, high } => {
            let (col, at) = (*col, *at);
            if let Err(fault) = check_split(rows.whole, region, node, col, at) {
                return Err(fault);
            }
            let below = Half {
                node: 2 * node,
                col,
                at,
                is_high: false,
            };
            let below = match bound_in_half(rows, costs, region, below, low, row) {
                Ok(bound) => bound,
                Err(fault) => return Err(fault),
            };
            let above = Half {
                node: 2 * node + 1,
                col,
                at,
                is_high: true,
            };
            match bound_in_half(rows, costs, region, above, high, row) {
                Ok(bound) => Ok(lesser(below, bound)),
                Err(fault) => Err(fault),
            }
        }
    }
}
