//! Nodes: their boxes, their order and their log.
ghost use Rattle.std.specs.Prelude.{◌≡◌, [], ◌∷◌, true, false, length, IfOk};
ghost use Rattle.cip_tree.specs.Nodes.{IsTaken};

use crate::boxes::between;
use crate::tree_splits::{is_node, split, tighten, two_columns};
use cip_domain::Tightened;
use cip_frac::Frac;
use cip_lin::{Choice, Choices, Side, Sides};
use cip_tree::{End, Logged, Node, SplitFault, Tree};
use std::alloc::{AllocError, Global};

/// The root is split at 1, and each half has its sides.
fn halves_end_and_begin(tree: &mut Tree) -> bool
    requires flags { tree.old.integral ≡ true ∷ false ∷ [] }
    requires columns { length tree.old.root.box ≡ 2 }
{
    if !is_halved(tree, None) {
        return false;
    }
    let (Some(low), Some(high)) = (tree.next(), tree.next()) else {
        return false;
    };
    let is_low = is_node(tree, &low, 1, between(0, 1))
        && tree.bounds().as_slice() == [between(0, 1), between(0, 3)].as_slice();
    drop(low);
    let is_high = is_node(tree, &high, 2, between(2, 3));
    drop(high);
    is_low && is_high && has_no_next(tree)
}

/// No node is open.
fn has_no_next(tree: &mut Tree) -> bool {
    let next = tree.next();
    let is_so = next.is_none();
    drop(next);
    is_so
}

/// What the split of the root comes to.
fn root_split(tree: &mut Tree, col: u32, at: i128, want: Option<SplitFault>) -> bool
    requires flags { tree.old.integral ≡ true ∷ false ∷ [] }
    requires columns { length tree.old.root.box ≡ 2 }
{
    let Some(root) = tree.next() else {
        return false;
    };
    if col >= 2 {
        drop(root);
        return false;
    }
    let halved = split(tree, &root, 1, col, at);
    drop(root);
    match (halved, want) {
        (Some(Ok(halves)), None) => halves == (1, 2),
        (Some(Err(fault)), Some(wanted)) => fault == wanted,
        _ => false,
    }
}

/// A node has this number, and its second column these sides and a choice that is made so.
fn has_made(tree: &mut Tree, node: &Node, number: u64, sides: Sides, on: bool) -> bool
    requires taken { IsTaken tree.old node.now }
    requires columns { length tree.old.root.box ≡ 2 }
    ensures { tree.new ≡ record tree.old { work = tree.new.work } }
{
    if !is_node(tree, node, number, between(0, 3)) {
        return false;
    }
    let choice = tree.choices().at(1);
    tree.bounds().as_slice() == [between(0, 3), sides].as_slice()
        && !choice.is_open()
        && !choice.is_plain()
        && choice.is_on() == on
}

/// The root is split by the choice of its second column, which is 0 or from 2 to 3, whatever the number: off in the
/// low half, and on in the high one. That can't be split there once more.
fn is_split_by_choice(tree: &mut Tree) -> bool
    requires flags { tree.old.integral ≡ true ∷ false ∷ [] }
    requires columns { length tree.old.root.box ≡ 2 }
{
    let Some(root) = tree.next() else {
        return false;
    };
    let is_split = split(tree, &root, 1, 1, 7) == Some(Ok((1, 2)));
    drop(root);
    if !is_split {
        return false;
    }
    let (Some(low), Some(high)) = (tree.next(), tree.next()) else {
        return false;
    };
    let is_so = has_made(tree, &low, 1, between(0, 0), false)
        && has_made(tree, &high, 2, between(2, 3), true)
        && split(tree, &high, 1, 1, 7) == Some(Err(SplitFault::NotWhole));
    drop(low);
    drop(high);
    is_so
}

/// The next node has this number and these sides of the first column.
fn is_next(tree: &mut Tree, number: u64, sides: Sides) -> bool
    requires columns { length tree.old.root.box ≡ 2 }
{
    match tree.next() {
        Some(node) => {
            let is_so = is_node(tree, &node, number, sides);
            drop(node);
            is_so
        }
        None => false,
    }
}

/// The next node is the root, at most 2.
fn gives_back_the_root(tree: &mut Tree) -> bool
    requires columns { length tree.old.root.box ≡ 2 }
{
    is_next(tree, 0, between(0, 2))
}

/// The root is noted to be at most 2 and then at most 3, and put back: it stays at most 2.
fn keeps_the_stronger(tree: &mut Tree) -> bool
    requires columns { length tree.old.root.box ≡ 2 }
{
    let Some(mut root) = tree.next() else {
        return false;
    };
    let is_noted = root.note(0, Side::High, Frac::from(2)).is_ok();
    let is_strong = is_node(tree, &root, 0, between(0, 2));
    let is_noted_again = root.note(0, Side::High, Frac::from(3)).is_ok();
    let stays = is_node(tree, &root, 0, between(0, 2));
    tree.put_back(root);
    is_noted
        && is_strong
        && is_noted_again
        && stays
        && tree.open_count() == 1
        && tree.log().is_empty()
        && gives_back_the_root(tree)
}

/// Nodes 3 and 4, which are 2 and 3, are taken, and entered in turn.
fn are_entered(tree: &mut Tree) -> bool
    requires columns { length tree.old.root.box ≡ 2 }
{
    let (Some(two), Some(three)) = (tree.next(), tree.next()) else {
        return false;
    };
    is_node(tree, &two, 3, between(2, 2))
        && is_node(tree, &three, 4, between(3, 3))
        && is_node(tree, &two, 3, between(2, 2))
}

/// The root is split at 1, its high half at 2, and the halves of that have their sides.
fn is_split_twice(tree: &mut Tree) -> bool
    requires flags { tree.old.integral ≡ true ∷ false ∷ [] }
    requires columns { length tree.old.root.box ≡ 2 }
{
    if !is_halved(tree, None) {
        return false;
    }
    let (Some(low), Some(high)) = (tree.next(), tree.next()) else {
        return false;
    };
    drop(low);
    let is_split = split(tree, &high, 2, 0, 2) == Some(Ok((3, 4)));
    drop(high);
    is_split && are_entered(tree)
}

/// The root is at most 3 already, can't be at least 4, and is at least 1 then, also in the low half of its split at 1.
fn keeps_its_side(tree: &mut Tree) -> bool
    requires flags { tree.old.integral ≡ true ∷ false ∷ [] }
    requires columns { length tree.old.root.box ≡ 2 }
{
    let Some(mut root) = tree.next() else {
        return false;
    };
    let same = tighten(tree, &mut root, Side::High, 3);
    let empty = tighten(tree, &mut root, Side::Low, 4);
    let stays = is_node(tree, &root, 0, between(0, 3));
    let yes = tighten(tree, &mut root, Side::Low, 1);
    if (same, empty, yes) != TIGHTENED || !stays {
        drop(root);
        return false;
    }
    let is_split = split(tree, &root, 1, 0, 1) == Some(Ok((1, 2)));
    drop(root);
    is_split && is_next(tree, 1, between(1, 1))
}

/// What the three come to.
const TIGHTENED: (Option<Tightened>, Option<Tightened>, Option<Tightened>) = (
    Some(Tightened::Same),
    Some(Tightened::Empty),
    Some(Tightened::Yes),
);

/// Node 2 is tightened to at most 2; that is so once more as it is entered after node 1, and as it is taken again.
fn has_its_side_again(tree: &mut Tree) -> bool
    requires columns { length tree.old.root.box ≡ 2 }
{
    let (Some(low), Some(mut high)) = (tree.next(), tree.next()) else {
        return false;
    };
    let is_tighter = tighten(tree, &mut high, Side::High, 2) == Some(Tightened::Yes)
        && tree.bounds().as_slice() == [between(2, 2), between(0, 3)].as_slice();
    let is_back = is_node(tree, &low, 1, between(0, 1)) && is_node(tree, &high, 2, between(2, 2));
    drop(low);
    tree.put_back(high);
    is_tighter && is_back && is_next(tree, 2, between(2, 2))
}

/// Splits the root, of this bound, at 1 into nodes 1 and 2.
fn is_halved(tree: &mut Tree, bound: Option<Frac>) -> bool
    requires flags { tree.old.integral ≡ true ∷ false ∷ [] }
    requires columns { length tree.old.root.box ≡ 2 }
    ensures root { tree.new.root ≡ tree.old.root }
    ensures integral { tree.new.integral ≡ tree.old.integral }
{
    let Some(mut root) = tree.next() else {
        return false;
    };
    if let Some(bound) = bound {
        root.raise(bound);
    }
    let is_so = split(tree, &root, 1, 0, 1) == Some(Ok((1, 2)));
    drop(root);
    is_so
}

/// The least bound of the open nodes is this number.
fn has_bound(tree: &Tree, bound: i64) -> bool {
    tree.bound() == Some(Some(Frac::from(bound)))
}

/// Node 1 is raised to 4 and put back; then node 2 comes first, and is parked; then node 1.
fn takes_the_least_first(tree: &mut Tree) -> bool {
    let Some(mut low) = tree.next() else {
        return false;
    };
    let is_low = low.id() == 1;
    low.raise(Frac::from(4));
    tree.put_back(low);
    let Some(high) = tree.next() else {
        return false;
    };
    let is_high = high.id() == 2 && has_bound(tree, 4);
    tree.park(high);
    let stays = has_bound(tree, 4);
    match tree.next() {
        Some(last) => {
            let is_last = last.id() == 1 && tree.bound().is_none();
            drop(last);
            is_low && is_high && stays && is_last
        }
        None => false,
    }
}

/// The end of a node of bound 3.
fn ended(id: u64, end: End) -> Logged {
    Logged {
        id,
        bound: Some(Frac::from(3)),
        end,
    }
}

/// Parks the first node, and closes the second; no other is open.
fn are_ended(tree: &mut Tree) -> bool {
    let Some(low) = tree.next() else {
        return false;
    };
    tree.park(low);
    let Some(high) = tree.next() else {
        return false;
    };
    tree.close(high);
    has_no_next(tree)
}

/// The log has the ends of the root, which was split, and of its halves, and is taken.
fn is_logged(tree: Tree) -> bool {
    let split = End::Split {
        col: 0,
        at: 1,
        low: 1,
        high: 2,
    };
    let log = [
        ended(0, split),
        ended(1, End::Parked),
        ended(2, End::Closed),
    ];
    tree.take_log().as_slice() == log.as_slice()
}

/// No open node has a bound of at least 4, and both have one of at least 3.
fn are_closed(tree: &mut Tree) -> bool {
    tree.close_from(Frac::from(4));
    let stay = tree.open_count() == 2;
    tree.close_from(Frac::from(3));
    stay && tree.open_count() == 0 && tree.log().len() == 1
}

/// What is tried with a tree of two columns from 0 to 3, of which the first is whole.
#[derive(Clone, Copy)]
enum Tried {
    /// Halves end and begin at the split.
    Halves,
    /// A column and a number at which the root is split, and why it isn't.
    Split(u32, i128, Option<SplitFault>),
    /// The stronger change of a node counts.
    Stronger,
    /// Each node is entered from the one before.
    Entered,
    /// A tightened side outlives a split.
    Outlives,
    /// A tightened side comes back with its node.
    ComesBack,
    /// The node of the least bound comes first.
    Order,
    /// Nodes are closed from a cost on.
    Closed,
}

static TRIED: [Tried; 12] = [
    Tried::Halves,
    Tried::Split(0, 0, None),
    Tried::Split(0, 2, None),
    Tried::Split(0, 3, Some(SplitFault::Outside)),
    Tried::Split(0, -1, Some(SplitFault::Outside)),
    Tried::Split(1, 1, Some(SplitFault::NotWhole)),
    Tried::Stronger,
    Tried::Entered,
    Tried::Outlives,
    Tried::ComesBack,
    Tried::Order,
    Tried::Closed,
];

/// Splits the root, of the bound 3, and tries one of the last two.
fn holds_behind(tree: &mut Tree, tried: Tried) -> bool
    requires flags { tree.old.integral ≡ true ∷ false ∷ [] }
    requires columns { length tree.old.root.box ≡ 2 }
{
    if !is_halved(tree, Some(Frac::from(3))) {
        return false;
    }
    match tried {
        Tried::Order => has_bound(tree, 3) && takes_the_least_first(tree),
        _ => are_closed(tree),
    }
}

fn holds(tree: &mut Tree, tried: Tried) -> bool
    requires flags { tree.old.integral ≡ true ∷ false ∷ [] }
    requires columns { length tree.old.root.box ≡ 2 }
{
    match tried {
        Tried::Halves => halves_end_and_begin(tree),
        Tried::Split(col, at, want) => root_split(tree, col, at, want),
        Tried::Stronger => keeps_the_stronger(tree),
        Tried::Entered => is_split_twice(tree),
        Tried::Outlives => keeps_its_side(tree),
        Tried::ComesBack => is_halved(tree, None) && has_its_side_again(tree),
        _ => holds_behind(tree, tried),
    }
}

fn is_so(alloc: Global, tried: Tried) -> bool {
    match two_columns(alloc, Choices::new(alloc)) {
        Ok(mut tree) => {
            let is_so = holds(&mut tree, tried);
            drop(tree);
            is_so
        }
        Err(_) => false,
    }
}

#[test]
fn trees_are_as_worked_out(rt: HostRuntime) {
    for at in 0..TRIED.len() {
        assert!(rt; is_so(rt.alloc(), TRIED[at]), "case {at}");
    }
}

/// The root is split, and the ends of its halves are logged in their order.
fn are_ends_logged(alloc: Global) -> bool {
    match two_columns(alloc, Choices::new(alloc)) {
        Ok(mut tree) => {
            let has_ended = is_halved(&mut tree, Some(Frac::from(3))) && are_ended(&mut tree);
            let is_logged = is_logged(tree);
            has_ended && is_logged
        }
        Err(_) => false,
    }
}

#[test]
fn ends_are_logged_in_their_order(rt: HostRuntime) {
    assert!(rt; are_ends_logged(rt.alloc()));
}

/// The tree whose second column is 0 or from 2 to 3.
fn with_a_choice(alloc: Global) -> Result<Tree, AllocError>
    ensures { IfOk result (λ tree. (tree.integral ≡ true ∷ false ∷ []) × (length tree.root.box ≡ 2)) }
{
    let mut choices = Choices::new(alloc);
    choices.push(Choice::plain())?;
    choices.push(Choice::open(between(2, 3)))?;
    two_columns(alloc, choices)
}

/// The first entry of the log is the split by the choice.
fn is_logged_by_choice(tree: &Tree) -> bool {
    let by_choice = End::Split {
        col: 1,
        at: 7,
        low: 1,
        high: 2,
    };
    match tree.log().first() {
        Some(entry) => entry.end == by_choice,
        None => false,
    }
}

fn is_choice_split(alloc: Global) -> bool {
    match with_a_choice(alloc) {
        Ok(mut tree) => {
            let is_so = is_split_by_choice(&mut tree) && is_logged_by_choice(&tree);
            drop(tree);
            is_so
        }
        Err(_) => false,
    }
}

#[test]
fn an_open_choice_is_split(rt: HostRuntime) {
    assert!(rt; is_choice_split(rt.alloc()));
}
