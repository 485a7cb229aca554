//! A tree of two columns, of which the first is whole, and what its tests ask of it.
ghost use Rattle.std.specs.Prelude.{◌≡◌, [], ◌∷◌, ◌<◌, ◌≤◌, true, false, length, IfOk, IfSome, IsSome, IsTrue};
ghost use Rattle.cip_problem.specs.Box.{sides_at};
ghost use Rattle.cip_problem.specs.Wholes.{AllHaveWholes};
ghost use Rattle.cip_domain.specs.Narrowing.{ArePlainPast};
ghost use Rattle.cip_tree.specs.Nodes.{IsTaken, region_of, box_of};

use crate::boxes::between;
use cip_domain::{Region, Tightened};
use cip_frac::Frac;
use cip_lin::{Bounds, Choices, Side, Sides};
use cip_tree::{Node, SplitFault, Tree};
use std::alloc::{AllocError, Global};

/// The region of a box and choices, which are no more than its columns.
fn region_with(bounds: Bounds, choices: Choices) -> Region
    requires few { length choices ≤ length bounds }
    ensures past { ArePlainPast result }
    ensures columns { result.box ≡ bounds }
{
    Region::new(bounds, choices)
}

/// The tree over two columns from 0 to 3 with these choices, of which the first is whole; its root has no bound.
pub(crate) fn two_columns(alloc: Global, choices: Choices) -> Result<Tree, AllocError>
    requires few { length choices ≤ 2 }
    ensures { IfOk result (λ tree. (tree.integral ≡ true ∷ false ∷ []) × (length tree.root.box ≡ 2)) }
{
    let mut bounds = Bounds::new(alloc, 2)?;
    bounds.set_sides(0, between(0, 3));
    bounds.set_sides(1, between(0, 3));
    Tree::new(alloc, region_with(bounds, choices), &[true, false], None)
}

/// The sides of the first column in a node in work, whose region is in work then; `None` where its box has no point.
pub(crate) fn first_sides(tree: &mut Tree, node: &Node) -> Option<Sides>
    requires taken { IsTaken tree.old node.now }
    requires columns { length tree.old.root.box ≡ 2 }
    ensures tree { tree.new ≡ record tree.old { work = tree.new.work } }
    ensures work { IsSome result → tree.new.work ≡ region_of tree.new node.now }
    ensures sides { IfSome result (λ sides. sides ≡ sides_at tree.new.work.box 0) }
{
    match tree.enter(node) {
        Ok(true) if tree.bounds().len() == 2 => Some(tree.bounds().sides(0)),
        _ => None,
    }
}

/// Whether a number lies between the first column's sides, where it alone is whole; the node's region is in work then.
fn has_between(tree: &mut Tree, node: &Node, number: i64) -> bool
    requires taken { IsTaken tree.old node.now }
    requires flags { tree.old.integral ≡ true ∷ false ∷ [] }
    requires columns { length tree.old.root.box ≡ 2 }
    ensures tree { tree.new ≡ record tree.old { work = tree.new.work } }
    ensures work { IsTrue result → tree.new.work ≡ region_of tree.new node.now }
    ensures wholes { IsTrue result → AllHaveWholes tree.new.integral (box_of tree.new node.now) }
{
    match first_sides(tree, node) {
        None => false,
        Some(sides) => sides.contains(Frac::from(number)),
    }
}

/// Splits a node whose first column has a number between its sides; `None` where it hasn't.
pub(crate) fn split(
    tree: &mut Tree,
    node: &Node,
    number: i64,
    col: u32,
    at: i128,
) -> Option<Result<(u64, u64), SplitFault>>
    requires taken { IsTaken tree.old node.now }
    requires flags { tree.old.integral ≡ true ∷ false ∷ [] }
    requires columns { length tree.old.root.box ≡ 2 }
    requires column { col < 2 }
    ensures root { tree.new.root ≡ tree.old.root }
    ensures integral { tree.new.integral ≡ tree.old.integral }
{
    if !has_between(tree, node, number) || tree.ids() >= 1 << 40 {
        return None;
    }
    Some(tree.split(node, col, at))
}

/// A node in work has this number and these sides of the first column.
pub(crate) fn is_node(tree: &mut Tree, node: &Node, number: u64, sides: Sides) -> bool
    requires taken { IsTaken tree.old node.now }
    requires columns { length tree.old.root.box ≡ 2 }
    ensures { tree.new ≡ record tree.old { work = tree.new.work } }
{
    node.id() == number && first_sides(tree, node) == Some(sides)
}

/// Tightens a side of the first column of a node, whose region is in work then; `None` where its box has no point, or
/// memory was refused.
pub(crate) fn tighten(
    tree: &mut Tree,
    node: &mut Node,
    side: Side,
    number: i64,
) -> Option<Tightened>
    requires taken { IsTaken tree.old node.old }
    requires columns { length tree.old.root.box ≡ 2 }
    ensures tree { tree.new ≡ record tree.old { work = tree.new.work } }
    ensures node { node.new ≡ record node.old { notes = node.new.notes } }
{
    match tree.enter(node) {
        Ok(true) if tree.bounds().len() == 2 => {
            tree.tighten(node, 0, side, Frac::from(number)).ok()
        }
        _ => None,
    }
}
