//! The tree of a search's nodes.
ghost use Rattle.std.specs.Prelude.{MatchResult, OnOk, vec_len, vec_capacity, ◌≡◌, ◌+◌, ◌-◌, ◌<◌, ◌≤◌, ◌^◌, ℕ, [], ◌∷◌, ◌++◌, length, filter, All, IfOk, MatchOption, None, Some};
ghost use Rattle.std.specs.List.Sorted.{IsPermutation};
ghost use Rattle.slab.specs.Slab.{HasRoomFor};
ghost use Rattle.cip_problem.specs.Log.{Closed, Parked, Split};
ghost use Rattle.cip_problem.specs.Wholes.{AllHaveWholes};
ghost use Rattle.cip_tree.specs.Searched.{IsSearched, IsOpenIn};
ghost use Rattle.cip_tree.specs.Started.{IsStarted};
ghost use Rattle.cip_problem.specs.Box.{sides_at};
ghost use Rattle.cip_domain.specs.Domain.{tightening};
ghost use Rattle.cip_domain.specs.Narrowing.{ArePlainPast};
ghost use Rattle.cip_tree.specs.Splitting.{IsParting, IsSplitFault};
ghost use Rattle.cip_tree.specs.Entries.{entries_of};
ghost use Rattle.cip_tree.specs.Nodes.{TakenNode, IsTaken, base_at, region_of, box_of, shown};
ghost use Rattle.cip_tree.specs.Tightening.{IsTightened};
ghost use Rattle.cip_tree.specs.Walks.{IsEntered};
ghost use Rattle.cip_tree.specs.Moves.{IsNew, IsSplit, TakesFirst, LetsGo, IsLeastBound, is_cheaper};

use crate::closed::release_from;
use crate::kept::{Kept, Stage, new_kept, part, release, restage};
use crate::logs::{End, Logged};
use crate::nodes::Node;
use crate::notes::Note;
use crate::origins::{Origin, Parting};
use crate::queue::{OpenNode, Queue};
use crate::splits::SplitFault;
use crate::walks::Walk;
use cip_domain::{Bounds, Choices, Frac, Region, Side, Tightened, can_halve};
use slab::Slab;
use std::alloc::{AllocError, Global};
use std::marker::Model;

/// The nodes of a search, and the region in work. Contracts see the root, the open and the parked nodes with their
/// boxes, what is kept of nodes in work, how many numbers were given, the log, and the region in work.
#[derive(Drop)]
pub struct Tree {
    alloc: Global,
    root: Region,
    root_bound: Option<Frac>,
    whole: Vec<bool>,
    kept: Slab<Kept>,
    queue: Queue,
    parked: Vec<OpenNode>,
    log: Vec<Logged>,
    ids: u64,
    in_work: usize,
    walk: Walk,
}

impl Model for Tree {
    ghost use Rattle.std.specs.Prelude.{◌-◌, length, vec_len, vec_capacity};
    ghost use Rattle.cip_tree.specs.Nodes.{Nodes, nodes_code, node_in};
    ghost use Rattle.cip_tree.specs.Entries.{entries_of};
    ghost use Rattle.cip_tree.specs.Inside.{nodes_at, bases, IsInOrder, HasRoom};
    ghost use Rattle.cip_tree.specs.Tracked.{IsTracked};
    ghost use Rattle.cip_tree.specs.Walks.{IsWalked};
    ghost use Rattle.cip_domain.specs.Domain.{region_of as region_in_work};

    ghost Value = { Nodes };

    ghost coded = { nodes_code };

    ghost view = { λ t. record {
      root = node_in t.root 0 t.root_bound;
      integral = t.whole.items;
      open_ = nodes_at t.root t.kept.slots t.queue.nodes;
      parked = nodes_at t.root t.kept.slots t.parked.items;
      taken = bases t.kept.slots;
      ids = t.ids;
      log = entries_of t.log.items;
      work = region_in_work t.walk.domain;
    } };

    ghost invariant = { λ t.
        IsInOrder t.kept.slots t.queue.nodes t.parked.items t.ids t.in_work
        × HasRoom (length t.queue.nodes) t.in_work t.queue.spare
        (vec_capacity t.parked - vec_len t.parked) (vec_capacity t.log - vec_len t.log)
        × IsTracked (node_in t.root 0 t.root_bound) t.whole.items t.kept.slots t.ids
        (entries_of t.log.items)
        × IsWalked t.root t.kept.slots t.ids t.walk };
}

/// What is kept of a root, and where.
#[derive(Drop)]
struct Rooted {
    kept: Slab<Kept>,
    place: usize,
}

/// What the tree of one open node begins with.
#[derive(Drop)]
struct Started {
    whole: Vec<bool>,
    rooted: Rooted,
    queue: Queue,
    parked: Vec<OpenNode>,
    log: Vec<Logged>,
    work: Region,
}

/// What the tree of a root begins with: the root is kept and waits, and has room to be parked and to be logged; `Err`
/// where the memory for it was refused.
fn root_parts(
    alloc: Global,
    root: &Region,
    whole: &[bool],
    bound: &Option<Frac>,
) -> Result<Started, AllocError>
    ensures whole { IfOk result (λ parts. parts.whole.items ≡ whole.now) }
    ensures started { IfOk result (IsStarted root.now bound.now) }
{
    let Ok(whole) = whole.to_vec(alloc) else {
        return Err(AllocError);
    };
    let mut kept = Slab::new(alloc);
    let Ok(place) = kept.insert(new_kept(alloc, 0, None)) else {
        return Err(AllocError);
    };
    let first = OpenNode {
        bound: *bound,
        id: 0,
        place,
    };
    let Ok(queue) = Queue::new(alloc, first) else {
        return Err(AllocError);
    };
    let Ok(parked) = Vec::with_capacity(alloc, 1) else {
        return Err(AllocError);
    };
    let Ok(log) = Vec::with_capacity(alloc, 1) else {
        return Err(AllocError);
    };
    let Ok(work) = root.copied(alloc) else {
        return Err(AllocError);
    };
    Ok(Started {
        whole,
        rooted: Rooted { kept, place },
        queue,
        parked,
        log,
        work,
    })
}

/// Makes room for the halves of a node: to keep them, to wait, to be parked, and for their entries in the log and that
/// of the node itself. `Err` comes where a growth was refused. The contents stay as they are.
fn make_room(
    kept: &mut Slab<Kept>,
    queue: &mut Queue,
    parked: &mut Vec<OpenNode>,
    log: &mut Vec<Logged>,
    in_work: usize,
) -> Result<(), AllocError>
    requires { length queue.old.nodes + in_work + 2 < 2 ^ 64 }
    ensures kept { kept.new.slots ≡ kept.old.slots }
    ensures queue { queue.new.nodes ≡ queue.old.nodes }
    ensures parked { parked.new.items ≡ parked.old.items }
    ensures log { log.new.items ≡ log.old.items }
    ensures grows { (queue.old.spare ≤ queue.new.spare)
        × (vec_capacity parked.old - vec_len parked.old ≤ vec_capacity parked.new - vec_len parked.new)
        × (vec_capacity log.old - vec_len log.old ≤ vec_capacity log.new - vec_len log.new) }
    ensures room { OnOk result (HasRoomFor kept.new 2
        × (in_work + 1 ≤ queue.new.spare)
        × (length queue.old.nodes + in_work + 1 ≤ vec_capacity parked.new - vec_len parked.new)
        × (length queue.old.nodes + in_work + 2 ≤ vec_capacity log.new - vec_len log.new)) }
{
    kept.reserve(2)?;
    queue.reserve(in_work + 1)?;
    parked.reserve(queue.len() + in_work + 1)?;
    log.reserve(queue.len() + in_work + 2)
}

/// A node that waits at a place, with the bound of another.
fn open_node(node: &Node, id: u64, place: usize) -> OpenNode
    ensures { result ≡ record { bound = node.now.bound; id = id; place = place } }
{
    OpenNode {
        bound: node.bound,
        id,
        place,
    }
}

impl Tree {
    /// The tree of one open node, number 0, with this region, which is in work, and this bound, `None` where none is
    /// known; `whole` says of each column whether it wants whole values. `Err` comes where the memory for it was
    /// refused.
    pub fn new(
        alloc: Global,
        root: Region,
        whole: &[bool],
        bound: Option<Frac>,
    ) -> Result<Tree, AllocError>
        requires columns { length whole.now ≡ length root.box }
        requires past { ArePlainPast root }
        ensures { IfOk result (λ tree. IsNew tree root whole.now bound) }
    {
        match root_parts(alloc, &root, whole, &bound) {
            Ok(parts) => Ok(Tree {
                alloc,
                root,
                root_bound: bound,
                whole: parts.whole,
                kept: parts.rooted.kept,
                queue: parts.queue,
                parked: parts.parked,
                log: parts.log,
                ids: 1,
                in_work: 0,
                walk: Walk::new(alloc, parts.work),
            }),
            Err(_) => Err(AllocError),
        }
    }

    /// How many nodes are open, those in work aside. Each of them is open in the log.
    pub fn open_count(&self) -> usize
        ensures count { result ≡ length self.now.open_ }
        ensures logged { All (IsOpenIn self.now.root self.now.log) self.now.open_ }
    {
        self.queue.len()
    }

    /// How many numbers were given to nodes.
    pub fn ids(&self) -> u64
        ensures { result ≡ self.now.ids }
    {
        self.ids
    }

    /// The nodes that were taken and have ended, in that order: the log of a search of each program that has the root's
    /// box, box bound and whole columns.
    pub fn log(&self) -> &[Logged]
        ensures entries { entries_of result.now ≡ self.now.log }
        ensures searched { IsSearched self.now.integral self.now.root self.now.log }
    {
        self.log.as_slice()
    }

    /// The log by itself, as `log` has it; the nodes are let go.
    pub fn take_log(self) -> Vec<Logged>
        ensures entries { entries_of result.items ≡ self.log }
        ensures searched { IsSearched self.integral self.root self.log }
    {
        self.log
    }

    /// The least bound of the open nodes, those in work aside: `Some(None)` where one of them has none; `None` exactly
    /// where there is no such node.
    pub fn bound(&self) -> Option<Option<Frac>>
        ensures { MatchOption result (self.now.open_ ≡ []) (λ bound. IsLeastBound bound self.now.open_) }
    {
        self.queue.least()
    }

    /// Makes the region of a node in work the region in work; whether its box may have a point. It goes back to the
    /// nearest node that its way shares with the node entered last, and takes the changes from there on. `Err` comes
    /// where memory was refused.
    pub fn enter(&mut self, node: &Node) -> Result<bool, AllocError>
        requires { IsTaken self.old node.now }
        ensures entered { IfOk result (IsEntered self.new.work (region_of self.old node.now)) }
        ensures rest { self.new ≡ record self.old { work = self.new.work } }
    {
        self.walk.enter(
            self.alloc,
            &self.kept,
            &self.root,
            node.place,
            node.notes.as_slice(),
        )
    }

    /// Makes a value a side of a column of a node, whose region is in work, if that is stronger and leaves the box a
    /// value there: the node notes it, and the region in work is the node's still. `Same` comes exactly where the side
    /// is at least as strong already, `Empty` exactly where it isn't and the low side would pass the high one; both
    /// leave all as it was, and so does `Err`, which comes where memory was refused.
    pub fn tighten(
        &mut self,
        node: &mut Node,
        col: u32,
        side: Side,
        value: Frac,
    ) -> Result<Tightened, AllocError>
        requires work { self.old.work ≡ region_of self.old node.old }
        requires column { col < length self.old.work.box }
        ensures outcome { IfOk result (λ answer. answer ≡ tightening (sides_at self.old.work.box col) side value) }
        ensures tightened { MatchResult result
            (λ answer. IsTightened answer self.old self.new node.old node.new
            (record { col = col; side = side; value = value }))
            (λ _. (self.new ≡ self.old) × (node.new ≡ node.old)) }
    {
        node.notes.reserve(1)?;
        let answer = self.walk.tighten(col, side, value)?;
        match answer {
            Tightened::Yes => node.notes.push_reserved(Note { col, side, value }),
            Tightened::Same | Tightened::Empty => {}
        }
        Ok(answer)
    }

    /// The box of the region in work.
    pub fn bounds(&self) -> &Bounds
        ensures { result.now ≡ self.now.work.box }
    {
        self.walk.domain().bounds()
    }

    /// The choices of the region in work.
    pub fn choices(&self) -> &Choices
        ensures { result.now ≡ self.now.work.choices }
    {
        self.walk.domain().choices()
    }

    /// What parts the values of a column in the node whose region is in work, or why it can't be split there.
    fn parting(&self, col: u32, at: i128) -> Result<Parting, SplitFault>
        requires column { col < length self.now.integral }
        requires wholes { AllHaveWholes self.now.integral self.now.work.box }
        ensures { (node : TakenNode)
            → self.now.work ≡ region_of self.now node
            → MatchResult result
            (λ parting. IsParting self.now node col at parting)
            (λ fault. IsSplitFault self.now node col at fault) }
    {
        let whole = self.whole[col as usize];
        let choice = self.choices().at(col);
        if whole && choice.is_plain() {
            return if can_halve(self.bounds().sides(col), at) {
                Ok(Parting::Whole)
            } else {
                Err(SplitFault::Outside)
            };
        }
        if !whole && choice.is_open() {
            Ok(Parting::Chosen)
        } else {
            Err(SplitFault::NotWhole)
        }
    }

    /// Splits a node whose region is in work at a column: it has ended, and its halves are open, with the two numbers
    /// that are answered. A whole column is at most `at` in the low half, and at least `at + 1` in the high one. Where
    /// the choice of the column is open it is off in the low half and on in the high one, whatever `at`. `NotWhole`
    /// comes exactly where the column is neither a whole one that is plain nor one that isn't whole and whose choice is
    /// open; `Outside` exactly where it is whole and plain, and `at` has a size above 2^101 or a half has no whole
    /// value in it; `NoMemory` where a growth was refused. After an `Err` the tree is as it was.
    pub fn split(&mut self, node: &Node, col: u32, at: i128) -> Result<(u64, u64), SplitFault>
        requires taken { IsTaken self.old node.now }
        requires work { self.old.work ≡ region_of self.old node.now }
        requires column { col < length self.old.integral }
        requires few { self.old.ids < 2 ^ 63 }
        requires wholes { AllHaveWholes self.old.integral (box_of self.old node.now) }
        ensures { MatchResult result
            (λ halves. IsSplit self.old self.new node.now col at halves.0 halves.1)
            (λ fault. (self.new ≡ self.old) × IsSplitFault self.old node.now col at fault) }
    {
        // Each whole column of the node needs a whole value, and a caller can see to it: a node with a column that
        // has none holds no point and is closed, the halves of a split keep such values (`CanSplit`), and between a
        // take and a split only the caller's own notes could take the last one. The tree would have to look at every
        // column.
        let parting = self.parting(col, at)?;
        let notes = node.notes.as_slice().to_vec(self.alloc)?;
        make_room(
            &mut self.kept,
            &mut self.queue,
            &mut self.parked,
            &mut self.log,
            self.in_work,
        )?;
        let low = self.ids;
        let high = low + 1;
        let parent = node.place;
        let low_origin = Origin::half(parting, true, parent, col, at);
        let high_origin = Origin::half(parting, false, parent, col, at);
        let low_kept = new_kept(self.alloc, low, Some(low_origin));
        let high_kept = new_kept(self.alloc, high, Some(high_origin));
        let (low_place, high_place) = part(&mut self.kept, parent, notes, low_kept, high_kept);
        self.queue.push(open_node(node, high, high_place));
        self.queue.push(open_node(node, low, low_place));
        self.in_work -= 1;
        self.ids = low + 2;
        self.log.push_reserved(Logged {
            id: node.id,
            bound: node.bound,
            end: End::Split { col, at, low, high },
        });
        Ok((low, high))
    }

    /// Takes the first open node: one without a bound, then of least bound, then of least number; `None` exactly where
    /// no node is open, which changes nothing. A node that was put aside, split or closed is not given out again.
    pub fn next(&mut self) -> Option<Node>
        ensures { MatchOption result ((self.old.open_ ≡ []) × (self.new ≡ self.old)) (TakesFirst self.old self.new) }
    {
        let first = self.queue.pop()?;
        let none = Vec::new(self.alloc);
        let notes = restage(&mut self.kept, first.place, none, Stage::Taken);
        self.in_work += 1;
        Some(Node {
            id: first.id,
            bound: first.bound,
            place: first.place,
            notes,
        })
    }

    /// Closes the open nodes whose bound is at least a cost; those without a bound stay, and so do nodes in work. None
    /// of them is logged. What is kept of nodes that ended goes with the last node below them. It looks at no node
    /// where none can have such a bound.
    pub fn close_from(&mut self, cost: Frac)
        ensures nodes { IsPermutation (filter (is_cheaper cost) self.old.open_) self.new.open_ }
        ensures taken { (place : ℕ) → base_at self.new place ≡ base_at self.old place }
        ensures rest { self.new ≡ record self.old { open_ = self.new.open_; taken = self.new.taken } }
    {
        if self.queue.reaches(cost) {
            release_from(&mut self.kept, self.queue.as_slice(), cost);
            self.queue.keep_below(cost);
        }
    }

    /// Makes a node in work open again. It isn't logged.
    pub fn put_back(&mut self, node: Node)
        requires { IsTaken self.old node }
        ensures nodes { IsPermutation (shown self.old node ∷ self.old.open_) self.new.open_ }
        ensures taken { LetsGo self.old self.new node.place }
        ensures rest { self.new ≡ record self.old { open_ = self.new.open_; taken = self.new.taken } }
    {
        let Node {
            id,
            bound,
            place,
            notes,
        } = node;
        let _ = restage(&mut self.kept, place, notes, Stage::Open);
        self.queue.push(OpenNode { bound, id, place });
        self.in_work -= 1;
    }

    /// Puts a node in work aside, and logs it.
    pub fn park(&mut self, node: Node)
        requires { IsTaken self.old node }
        ensures taken { LetsGo self.old self.new node.place }
        ensures rest { self.new ≡ record self.old {
          parked = self.old.parked ++ shown self.old node ∷ [];
          taken = self.new.taken;
          log = self.old.log ++ record { node = node.number; bound = node.bound; end = Parked } ∷ [];
        } }
    {
        let entry = Logged {
            id: node.id,
            bound: node.bound(),
            end: End::Parked,
        };
        let aside = OpenNode {
            bound: node.bound(),
            id: node.id,
            place: node.place,
        };
        let _ = restage(&mut self.kept, node.place, node.notes, Stage::Parked);
        self.parked.push_reserved(aside);
        self.in_work -= 1;
        self.log.push_reserved(entry);
    }

    /// Closes a node in work, and logs it.
    pub fn close(&mut self, node: Node)
        requires { IsTaken self.old node }
        ensures taken { LetsGo self.old self.new node.place }
        ensures rest { self.new ≡ record self.old {
          taken = self.new.taken;
          log = self.old.log ++ record { node = node.number; bound = node.bound; end = Closed } ∷ [];
        } }
    {
        release(&mut self.kept, node.place);
        self.in_work -= 1;
        self.log.push_reserved(Logged {
            id: node.id,
            bound: node.bound,
            end: End::Closed,
        });
    }
}
