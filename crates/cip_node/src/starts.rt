//! What nodes leave to those after them: where their linear programs start, and the last linear values.
ghost use Rattle.std.specs.Prelude.{◌≡◌, length, IfSome};

use cip_frac::Frac;
use cip_lin::Combo;
use cip_relax::Start;
use std::alloc::Global;

/// How many variables the starts that are kept may have together: each costs a byte or two.
const MOST_VARIABLES: usize = 1 << 28;

/// The start of the two halves of a node that was split, and whether one of them was worked on.
#[derive(Drop)]
struct Shared {
    start: Start,
    used: bool,
}

/// Where the linear programs of nodes start: those of the two halves of a split where that of the node that was split
/// ended. Each start leads to a right answer, that of another node, too, and a node without one is solved from the
/// first state; so no clause says which are kept. Beside them stand the values of the last linear program that had a
/// point, of whichever node: a node without a point of its own is split by those.
#[derive(Drop)]
pub struct Starts {
    // by split: the halves of split k have the numbers 2k + 1 and 2k + 2
    splits: Vec<Option<Shared>>,
    // the split at the first place
    first: usize,
    // how many are there at most
    kept: usize,
    // the node in work
    node: u64,
    // where its linear program ended
    last: Option<Start>,
    // the last linear values
    values: Option<Vec<Frac>>,
    // the combination that shows what they cost at least, if one was kept
    combo: Option<Combo>,
}

/// The split that gave a node; `None` for the root.
fn split_of(number: u64) -> Option<usize> {
    if number == 0 {
        None
    } else {
        Some(((number - 1) / 2) as usize)
    }
}

impl Starts {
    /// None yet.
    pub(crate) fn new(alloc: Global) -> Starts {
        Starts {
            splits: Vec::new(alloc),
            first: 0,
            kept: 0,
            node: 0,
            last: None,
            values: None,
            combo: None,
        }
    }

    /// Keeps the point of the linear program of the node in work, if it has one, as the last linear values.
    pub(crate) fn note(&mut self, point: Option<Vec<Frac>>) {
        self.keep(point, None);
    }

    /// Keeps the point of the linear program of the node in work, if it has one, as the last linear values, and the
    /// combination that shows its least cost beside it, if there is one.
    pub fn keep(&mut self, point: Option<Vec<Frac>>, combo: Option<Combo>) {
        if point.is_some() {
            self.values = point;
            self.combo = combo;
        }
    }

    /// The combination that shows the least cost of the linear program that had the last linear values, if it was kept.
    pub fn last_combo(&self) -> Option<&Combo> {
        self.combo.as_ref()
    }

    /// The last linear values, one for each of so many columns, if a linear program had a point.
    pub fn last_values(&self, columns: usize) -> Option<&[Frac]>
        ensures { IfSome result (λ values. length values.now ≡ columns) }
    {
        match &self.values {
            Some(values) if values.len() == columns => Some(values.as_slice()),
            _ => None,
        }
    }

    /// Where the start of the node in work stands, if it is there.
    fn place(&self) -> Option<usize> {
        split_of(self.node)?.checked_sub(self.first)
    }

    /// Turns to the node of this number; that before it needs its start no more.
    pub fn turn_to(&mut self, number: u64) {
        if let Some(place) = self.place() {
            self.leave(place);
        }
        self.last = None;
        self.node = number;
    }

    /// One half of the split at a place needs its start no more; it goes when the second one doesn't.
    fn leave(&mut self, place: usize) {
        if place >= self.splits.len() {
            return;
        }
        let is_last = match &mut self.splits[place] {
            None => false,
            Some(shared) => {
                let was_used = shared.used;
                shared.used = true;
                was_used
            }
        };
        if is_last {
            self.splits[place] = None;
            self.kept = self.kept.saturating_sub(1);
        }
    }

    /// Where the linear program of the node in work starts: where its last one ended, else the start that was handed on
    /// to it, if there is one.
    pub(crate) fn given(&self) -> Option<&Start> {
        if self.last.is_some() {
            return self.last.as_ref();
        }
        match self.splits.get(self.place()?) {
            Some(Some(shared)) => Some(&shared.start),
            _ => None,
        }
    }

    /// Keeps where the linear program of the node in work ended.
    pub(crate) fn hold(&mut self, last: Start) {
        self.last = Some(last);
    }

    /// Whether there are too many of so many variables each: more than there is room for, or more than twice as many as
    /// nodes are open. Halves that were let go unworked leave theirs behind, and no list tells which.
    fn are_too_many(&self, variables: usize, waiting: usize) -> bool {
        self.kept > MOST_VARIABLES / variables.saturating_add(64)
            || self.kept > 64 && self.kept / 2 > waiting
    }

    /// Hands where the linear program of the node in work ended on to its halves, of which this is the number of the
    /// low one, while so many nodes are open. Where too many are kept all others are let go first; where memory is
    /// refused the halves have none.
    pub fn hand_on(&mut self, low: u64, waiting: usize) {
        let Some(start) = self.last.take() else {
            return;
        };
        let Some(split) = split_of(low) else {
            drop(start);
            return;
        };
        if self.are_too_many(start.len(), waiting) {
            self.splits.clear();
            self.kept = 0;
        }
        if self.splits.is_empty() {
            self.first = split;
        }
        match split.checked_sub(self.first) {
            Some(place) => self.put(place, start),
            None => drop(start),
        }
    }

    /// Puts places without a start behind the others, as many as stand before a place; whether the next one is that.
    fn reach(&mut self, place: usize) -> bool {
        for _ in self.splits.len()..place {
            if self.splits.push(None).is_err() {
                return false;
            }
        }
        self.splits.len() == place
    }

    /// Puts a start to a place behind the others.
    fn put(&mut self, place: usize, start: Start) {
        if !self.reach(place) {
            drop(start);
            return;
        }
        let shared = Shared { start, used: false };
        if self.splits.push(Some(shared)).is_ok() {
            self.kept = self.kept.saturating_add(1);
        }
    }
}
