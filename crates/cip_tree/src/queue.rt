//! The open nodes in the order in which they are taken: without a bound first, then of least bound, then of least id.
ghost use Rattle.std.specs.Prelude.{◌≡◌, ◌+◌, ◌<◌, ◌≤◌, [], ◌∷◌, length, true, false, filter, All, IfOk, OnOk, MatchOption};
ghost use Rattle.std.specs.List.Sorted.{IsPermutation};
ghost use Rattle.std.specs.Ordering.{as_partial_cmp, eq_by_cmp};
ghost use Rattle.cip_tree.specs.Queue.{order, order_total, order_equivalence, order_partial_equivalence, order_partial, IsFirst, is_below, bound_below, greater_bound};
ghost use Rattle.cip_tree.specs.Queue.{IsLeast};
ghost use Rattle.cip_rational.specs.Rational.{lt_test};
ghost use Rattle.cip_tree.specs.Bounds.{IsBoundAtMost};
ghost use Rattle.std.proofs.Common.{refl};

use cip_domain::Frac;
use std::alloc::{AllocError, Global};
use std::cmp::Ordering;
use std::collections::BinaryHeap;
use std::marker::Model;

/// An open node: its bound, its id, and the place where it is kept.
#[derive(Clone, Copy)]
pub(crate) struct OpenNode {
    pub(crate) bound: Option<Frac>,
    pub(crate) id: u64,
    pub(crate) place: usize,
}

impl PartialEq for OpenNode {
    ghost eq = { eq_by_cmp order };

    ghost laws = { order_partial_equivalence };

    fn eq(&self, other: &OpenNode) -> bool {
        self.cmp(other).is_eq()
    }
}

impl Eq for OpenNode {
    ghost laws = { order_equivalence };
}

impl PartialOrd for OpenNode {
    ghost partial_cmp = { as_partial_cmp order };

    ghost laws = { order_partial };

    fn partial_cmp(&self, other: &OpenNode) -> Option<Ordering> {
        Some(self.cmp(other))
    }
}

impl Ord for OpenNode {
    ghost cmp = { order };

    ghost total = { order_total };

    ghost matches_partial_cmp = { λ x y. refl };

    ghost matches_eq = { λ x y. refl };

    fn cmp(&self, other: &OpenNode) -> Ordering {
        other.bound.cmp(&self.bound).then(other.id.cmp(&self.id))
    }
}

/// Whether a number is below another.
fn is_less(a: Frac, b: Frac) -> bool
    ensures { result ≡ lt_test a b }
{
    a < b
}

/// The greater of two bounds, where none is less than each that is there.
fn greater(most: Option<Frac>, bound: Option<Frac>) -> Option<Frac>
    ensures { result ≡ greater_bound most bound }
{
    match (most, bound) {
        (None, _) => bound,
        (Some(_), None) => most,
        (Some(a), Some(b)) => { if is_less(a, b) { bound } else { most } }
    }
}

/// Whether a bound is below a cost, as it is where there is none.
pub(crate) fn stays(bound: Option<Frac>, cost: Frac) -> bool
    ensures { result ≡ bound_below cost bound }
{
    match bound {
        None => true,
        Some(bound) => is_less(bound, cost),
    }
}

/// The greatest of the nodes' bounds.
fn greatest(nodes: &[OpenNode]) -> Option<Frac>
    ensures { All (λ node. IsBoundAtMost node.bound result) nodes.now }
{
    let mut most = None;
    for node in nodes {
        most = greater(most, node.bound);
    }
    most
}

/// The open nodes. Contracts see them as a list in no order, and for how many more there is room.
#[derive(Drop)]
pub(crate) struct Queue {
    heap: BinaryHeap<OpenNode>,
    // no open node has a greater bound
    most: Option<Frac>,
}

impl Model for Queue {
    ghost use Rattle.std.specs.Prelude.{◌-◌};
    ghost use Rattle.std.specs.BinaryHeap.{heap_items, heap_len, heap_capacity};
    ghost use Rattle.cip_tree.specs.Queue.{Waiting, waiting_code, IsQueue};

    ghost Value = { Waiting };

    ghost coded = { waiting_code };

    ghost view = { λ q. record { nodes = heap_items q.heap; spare = heap_capacity q.heap - heap_len q.heap } };

    ghost invariant = { λ q. IsQueue (heap_items q.heap) q.most };
}

impl Queue {
    /// The queue of one node; `Err` where the memory for it was refused.
    pub(crate) fn new(alloc: Global, node: OpenNode) -> Result<Queue, AllocError>
        ensures { IfOk result (λ queue. queue.nodes ≡ node ∷ []) }
    {
        let mut queue = Queue {
            heap: BinaryHeap::new(alloc),
            most: None,
        };
        queue.reserve(1)?;
        queue.push(node);
        Ok(queue)
    }

    /// How many nodes are open.
    pub(crate) fn len(&self) -> usize
        ensures { result ≡ length self.now.nodes }
    {
        self.heap.len()
    }

    /// Makes room for so many nodes. `Err` comes where a growth was refused. Neither changes the nodes, and the room
    /// never shrinks.
    pub(crate) fn reserve(&mut self, nodes: usize) -> Result<(), AllocError>
        ensures room { OnOk result (nodes ≤ self.new.spare) }
        ensures grows { self.old.spare ≤ self.new.spare }
        ensures same { self.new ≡ record self.old { spare = self.new.spare } }
    {
        self.heap.reserve(nodes)
    }

    /// Adds a node, for which there is room.
    pub(crate) fn push(&mut self, node: OpenNode)
        requires { 0 < self.old.spare }
        ensures nodes { IsPermutation (node ∷ self.old.nodes) self.new.nodes }
        ensures room { self.old.spare ≤ self.new.spare + 1 }
    {
        self.most = greater(self.most, node.bound);
        let _ = self.heap.push(node);
    }

    /// Takes out the first node; `None` exactly where there is none.
    pub(crate) fn pop(&mut self) -> Option<OpenNode>
        ensures { MatchOption result
            ((self.old.nodes ≡ []) × (self.new ≡ self.old))
            (λ node. IsPermutation self.old.nodes (node ∷ self.new.nodes)
            × IsFirst node self.new.nodes × (self.new.spare ≡ self.old.spare + 1)) }
    {
        self.heap.pop()
    }

    /// The nodes, in no order.
    pub(crate) fn as_slice(&self) -> &[OpenNode]
        ensures { result.now ≡ self.now.nodes }
    {
        self.heap.as_slice()
    }

    /// Whether a node may be open whose bound is at least a cost; where the answer is no, there is none.
    pub(crate) fn reaches(&self, cost: Frac) -> bool
        ensures { result ≡ false → All (λ node. is_below cost node ≡ true) self.now.nodes }
    {
        !stays(self.most, cost)
    }

    /// Takes out the nodes whose bound is at least a cost.
    pub(crate) fn keep_below(&mut self, cost: Frac)
        ensures nodes { IsPermutation (filter (is_below cost) self.old.nodes) self.new.nodes }
        ensures room { self.new.spare + length self.new.nodes ≡ self.old.spare + length self.old.nodes }
    {
        self.heap.retain(|node| stays(node.bound, cost));
        self.most = greatest(self.heap.as_slice());
    }

    /// The bound of the first node; `None` exactly where there is no node.
    pub(crate) fn least(&self) -> Option<Option<Frac>>
        ensures { MatchOption result (self.now.nodes ≡ []) (λ bound. IsLeast bound self.now.nodes) }
    {
        match self.heap.peek() {
            None => None,
            Some(node) => {
                let first = *node;
                Some(first.bound)
            }
        }
    }
}
