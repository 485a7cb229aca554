//! A search over the nodes, from one to the next.
ghost use Rattle.std.specs.Prelude.{◌≡◌, ℕ, ◌+◌, ◌<◌, ◌≤◌, true, false, Option, [], ◌++◌, length, MatchOption};
ghost use Rattle.std.specs.Prelude.{vec_len, vec_capacity};
ghost use Rattle.cip_rational.specs.Rational.{ℚ};
ghost use Rattle.cip_problem.specs.WellFormed.{columns};
ghost use Rattle.cip_plugin.specs.Seats.{State};
ghost use Rattle.cip_solve.specs.CoreStates.{reduced_of, way_of};
ghost use Rattle.cip_solve.specs.FirstStops.{IsLongerLog};
ghost use Rattle.cip_solve.specs.Logs.{marks_by};
ghost use Rattle.cip_solve.specs.SplitsServed.{splits_in, HasServed};
ghost use Rattle.cip_solve.specs.Searching.{IsSameSearch, IsStillAt, IsStanding, IsWritten, ReachesGapAt, WasShort};
ghost use Rattle.cip_solve.specs.Stops.{IsKeptAs, StopsAt};

use crate::works::Works;
use cip_endings::{Worst, flat, least_left, reaches_gap, worse};
use cip_frac::Frac;
use cip_node::{Mark, NodeEnd, NodeRecord, NodeWork};
use std::alloc::Global;

/// How a search stops.
#[derive(Drop)]
pub(crate) enum Stop {
    /// No node is open, the budget is spent, or the gap that was asked for is reached.
    Still,
    /// The cost falls without end from a point along a ray.
    Endless { point: Vec<Frac>, ray: Vec<Frac> },
    /// Memory was refused, and before that this was the least bound.
    NoMemory { bound: Option<Frac> },
}

/// A search: what works on its nodes, the worst parked leaf, and the marks so far.
#[derive(Drop)]
pub(crate) struct Search<'a> {
    pub(crate) work: NodeWork<'a>,
    pub(crate) worst: Option<Worst>,
    pub(crate) marks: Vec<(u64, Mark)>,
}

impl<'a> Search<'a> {
    /// Keeps the mark of a node, for which there is room.
    fn note(&mut self, number: u64, mark: Option<Mark>)
        requires { vec_len self.old.marks < vec_capacity self.old.marks }
        ensures work { self.new.work ≡ self.old.work }
        ensures worst { self.new.worst ≡ self.old.worst }
        ensures marked { self.new.marks.items ≡ self.old.marks.items ++ marks_by number mark }
    {
        if let Some(mark) = mark {
            self.marks.push_reserved((number, mark));
        }
    }

    /// Keeps what was met in the work on a node, for which there is room, and what its end comes to; how the search
    /// stops by it.
    fn settle(&mut self, number: u64, done: (NodeEnd, NodeRecord)) -> Option<Stop>
        requires { vec_len self.old.marks < vec_capacity self.old.marks }
        ensures work { self.new.work ≡ self.old.work }
        ensures marked { self.new.marks.items ≡ self.old.marks.items ++ marks_by number done.1.mark }
        ensures kept { IsKeptAs self.old.worst self.new.worst done.0 result }
    {
        let (end, record) = done;
        let NodeRecord { mark } = record;
        self.note(number, mark);
        match end {
            NodeEnd::Parked {
                leaf,
                on,
                bound,
                shown,
            } => {
                let before = self.worst.take();
                let parked = Worst {
                    leaf,
                    on,
                    bound,
                    shown,
                };
                self.worst = worse(before, parked);
                None
            }
            NodeEnd::Ray { point, ray } => Some(Stop::Endless { point, ray }),
            NodeEnd::Pruned | NodeEnd::Empty | NodeEnd::Solved | NodeEnd::Split(_, _) => None,
        }
    }

    /// Takes up a node and works on it; how the search stops, if it does.
    fn turn<W: Works>(&mut self, alloc: Global, works: &mut W) -> Option<Stop>
        requires standing { IsStanding self.old.work.core self.old.worst }
        requires written { IsWritten self.old.work.core self.old.marks.items }
        requires ready { W.is_ready works.old (columns (reduced_of self.old.work.core)) }
        ensures same { IsSameSearch self.old.work.core self.new.work.core
            × (W.asks ≡ false → self.new.work.core.touched ≡ self.old.work.core.touched) }
        ensures longer { length self.new.work.core.tree.log ≤ length self.old.work.core.tree.log + 1 }
        ensures grown { IsLongerLog self.old.work.core.tree.log self.new.work.core.tree.log }
        ensures written { IsWritten self.new.work.core self.new.marks.items }
        ensures turned { (nodes : ℕ) (asked : Option ℚ) → MatchOption result
            (IsStanding self.new.work.core self.new.worst
            × (length self.new.work.core.tree.log ≡ length self.old.work.core.tree.log + 1))
            (StopsAt self.new.work.core nodes asked self.new.worst) }
        ensures asked { W.is_ready works.new (columns (reduced_of self.new.work.core))
            × ((first : State) → HasServed (splits_in self.old.work.core.tree.log) first (W.state works.old)
            → HasServed (splits_in self.new.work.core.tree.log) first (W.state works.new)) }
    {
        let waiting = self.work.core.tree().bound();
        if waiting.is_none() {
            return Some(Stop::Still);
        }
        let bound = flat(least_left(self.work.core.held_cost(), waiting, &self.worst));
        if self.marks.reserve(1).is_err() {
            return Some(Stop::NoMemory { bound });
        }
        let _entries = self.work.core.tree().log().len();
        let Some(node) = self.work.core.take() else {
            return Some(Stop::Still);
        };
        let number = node.id();
        let ended = works.work_on(alloc, &mut self.work, node);
        self.work.core.is_sound();
        match ended {
            Err(_) => Some(Stop::NoMemory { bound }),
            Ok(done) => self.settle(number, done),
        }
    }

    /// Whether the gap that was asked for is reached.
    fn has_reached_gap(&self, asked: &Option<Frac>) -> bool
        requires { IsStillAt self.now.work.core self.now.worst }
        ensures reached { result ≡ true → ReachesGapAt asked.now self.now.work.core.tree self.now.work.core.incumbent }
        ensures short { result ≡ false → ReachesGapAt asked.now self.now.work.core.tree self.now.work.core.incumbent
            → ⊥ }
    {
        if asked.is_none() {
            return false;
        }
        let held = self.work.core.held_cost();
        let bound = flat(least_left(held, self.work.core.tree().bound(), &self.worst));
        reaches_gap(asked, &held, &bound)
    }

    /// Takes up open nodes, at most so many, until the gap that was asked for is reached at the end of one; how the
    /// search stops.
    pub(crate) fn explore<W: Works>(
        &mut self,
        alloc: Global,
        works: &mut W,
        nodes: u64,
        asked: &Option<Frac>,
    ) -> Stop
        requires standing { IsStanding self.old.work.core self.old.worst }
        requires written { IsWritten self.old.work.core self.old.marks.items }
        requires empty { self.old.work.core.tree.log ≡ [] }
        requires plain { self.old.work.core.touched ≡ false }
        requires ready { W.is_ready works.old (columns (reduced_of self.old.work.core)) }
        ensures same { IsSameSearch self.old.work.core self.new.work.core
            × (W.asks ≡ false → self.new.work.core.touched ≡ self.old.work.core.touched) }
        ensures most { length self.new.work.core.tree.log ≤ nodes }
        ensures written { IsWritten self.new.work.core self.new.marks.items }
        ensures stopped { StopsAt self.new.work.core nodes asked.now self.new.worst result }
        ensures first { WasShort self.old.work.core.program (reduced_of self.old.work.core)
            (way_of self.old.work.core) self.old.work.core.tree.root.bound asked.now self.new.work.core.tree.log }
        ensures asked { W.is_ready works.new (columns (reduced_of self.new.work.core))
            × HasServed (splits_in self.new.work.core.tree.log) (W.state works.old) (W.state works.new) }
    {
        for _ in 0..nodes {
            if let Some(stop) = self.turn(alloc, works) {
                return stop;
            }
            if self.has_reached_gap(asked) {
                return Stop::Still;
            }
        }
        Stop::Still
    }
}
