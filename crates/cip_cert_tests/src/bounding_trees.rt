//! Trees over two whole columns from 0 to 1 with the costs -2 and -1, where 2 x + 2 y is at most 3, and others.
use crate::regions::{Task, bound, checked, empty, halves, semi_column, split, two_columns};
use cip_cert::{BoundTree, CutFault, Scratch};
use cip_frac::Frac;
use cip_lagrange::{TreeBound, TreeFault};
use std::alloc::Global;

/// A tree that is checked.
#[derive(Clone, Copy)]
pub enum Shape {
    /// x is split at 0, and minus half the row bounds both halves, by -3/2 and -5/2.
    Halved,
    /// x is split at 0; the box alone bounds the low half, by -1. y is split in the high half: the box alone bounds its
    /// low half by -2, and the row empties its high half.
    Emptied,
    /// Both halves are emptied by the row, which it does in neither.
    BothEmpty,
    /// A leaf that is emptied by nothing.
    NotEmpty,
    /// A column that isn't there is split.
    NoColumn,
    /// x is split at 1, so that the high half has no whole value.
    NoWhole,
    /// x is split at 0, and its high half at 0 again, so that its low half has no whole value.
    Again,
}

static SHAPES: [Shape; 7] = [
    Shape::Halved,
    Shape::Emptied,
    Shape::BothEmpty,
    Shape::NotEmpty,
    Shape::NoColumn,
    Shape::NoWhole,
    Shape::Again,
];

/// The tree of a shape.
pub fn tree_of(alloc: Global, shape: Shape) -> Option<BoundTree> {
    match shape {
        Shape::Halved => split(alloc, 0, 0, bound(alloc, -1), bound(alloc, -1)),
        Shape::Emptied => {
            let high = split(alloc, 1, 0, bound(alloc, 0), empty(alloc, -2));
            split(alloc, 0, 0, bound(alloc, 0), high)
        }
        Shape::BothEmpty => split(alloc, 0, 0, empty(alloc, -2), empty(alloc, -2)),
        Shape::NotEmpty => empty(alloc, 0),
        Shape::NoColumn => split(alloc, 2, 0, bound(alloc, 0), bound(alloc, 0)),
        Shape::NoWhole => split(alloc, 0, 1, bound(alloc, 0), bound(alloc, 0)),
        Shape::Again => {
            let high = split(alloc, 0, 0, bound(alloc, 0), bound(alloc, 0));
            split(alloc, 0, 0, bound(alloc, 0), high)
        }
    }
}

/// What the check of it answers. At costs 0 the row by -1 comes to -3 in the low half of x.
fn want(shape: Shape) -> Result<TreeBound, TreeFault> {
    match shape {
        Shape::Halved => Ok(TreeBound::Finite(halves(-5))),
        Shape::Emptied => Ok(TreeBound::Finite(halves(-4))),
        Shape::BothEmpty => Err(TreeFault::At {
            node: 2,
            fault: CutFault::NotPositive { value: halves(-6) },
        }),
        Shape::NotEmpty => Err(TreeFault::At {
            node: 1,
            fault: CutFault::NotPositive { value: halves(0) },
        }),
        Shape::NoColumn => Err(TreeFault::BadSplit { node: 1 }),
        Shape::NoWhole => Err(TreeFault::BadSplit { node: 1 }),
        Shape::Again => Err(TreeFault::BadSplit { node: 3 }),
    }
}

/// Whether the check of a tree answers this.
fn answers_once(
    task: &mut Task,
    tree: &BoundTree,
    scratch: &mut Scratch,
    want: &Result<TreeBound, TreeFault>,
) -> bool {
    match checked(task, tree, scratch) {
        Some(answer) => answer == *want,
        None => false,
    }
}

/// Whether the check of a tree answers this, and the same again, so that the box is as it was.
fn answers(
    task: Option<Task>,
    tree: Option<BoundTree>,
    scratch: &mut Scratch,
    want: &Result<TreeBound, TreeFault>,
) -> bool {
    let Some(mut task) = task else {
        drop(tree);
        return false;
    };
    let Some(tree) = tree else {
        drop(task);
        return false;
    };
    let is_so = answers_once(&mut task, &tree, scratch, want)
        && answers_once(&mut task, &tree, scratch, want);
    drop(tree);
    drop(task);
    is_so
}

/// The first shape whose check answers something else.
fn first_wrong(alloc: Global, scratch: &mut Scratch) -> Option<usize> {
    for at in 0..SHAPES.len() {
        let shape = SHAPES[at];
        let task = two_columns(alloc, 1);
        if !answers(task, tree_of(alloc, shape), scratch, &want(shape)) {
            return Some(at);
        }
    }
    None
}

/// So many splits in a row: x at 0, at 1 and so on, each in the high half of the one before.
fn chain(alloc: Global, depth: u8) -> Option<BoundTree> {
    let mut tree = bound(alloc, 0);
    for above in 0..depth {
        let at = depth as i128 - 1 - above as i128;
        tree = split(alloc, 0, at, bound(alloc, 0), tree);
    }
    tree
}

/// What 64 splits in a row and what 65 answer: the least cost of two columns from 0 to 100, and a fault.
fn depths_are_kept(alloc: Global, scratch: &mut Scratch) -> bool {
    let least = Ok(TreeBound::Finite(Frac::from(-300i64)));
    answers(two_columns(alloc, 100), chain(alloc, 64), scratch, &least)
        && answers(
            two_columns(alloc, 100),
            chain(alloc, 65),
            scratch,
            &Err(TreeFault::TooDeep),
        )
}

/// A column that is 0 or from 2 to 5 is split into off and on, whatever the number is, and only once.
fn choices_are_made(alloc: Global, scratch: &mut Scratch) -> bool {
    let once = split(alloc, 0, i128::MIN, bound(alloc, 0), bound(alloc, 0));
    let high = split(alloc, 0, 3, bound(alloc, 0), bound(alloc, 0));
    let twice = split(alloc, 0, 0, bound(alloc, 0), high);
    let least = Ok(TreeBound::Finite(Frac::from(-5i64)));
    answers(semi_column(alloc), once, scratch, &least)
        && answers(
            semi_column(alloc),
            twice,
            scratch,
            &Err(TreeFault::BadSplit { node: 3 }),
        )
}

#[test]
fn trees_bound(rt: HostRuntime) {
    match Scratch::new(rt.alloc(), 2) {
        Ok(mut scratch) => {
            let wrong = first_wrong(rt.alloc(), &mut scratch);
            let deep = depths_are_kept(rt.alloc(), &mut scratch);
            let made = choices_are_made(rt.alloc(), &mut scratch);
            drop(scratch);
            assert!(rt; wrong == None, "{wrong:?}");
            assert!(rt; deep);
            assert!(rt; made);
        }
        Err(_) => assert!(rt; false, "there is no memory"),
    }
}
