//! The handler of the rows of a class.
ghost use Rattle.std.specs.Prelude.{None};
ghost use Rattle.cip_handlers.specs.ClassNames.{class_name};

use crate::classes::{Class, list_rows};
use crate::rounding::Rounding;
use crate::tries::Tries;
use cip_lin::RowId;
use cip_plugin::{ConsHandler, Cut, Enforced, Plugin, Reduction, View};
use cip_tighten::{Implied, MOST_REDUCTIONS, Patience, Watched, add_reductions};
use std::alloc::{AllocError, Global};

// Behind a call that brought sides so many go by from this node on: other propagators look at the same rows.
const REST: u32 = 16;

const FIRST_RESTING: u64 = 16;

/// A handler of the rows of a class: the sides of columns that one of them implies in the node's box, and one of them
/// divided and rounded, where that cuts the last point of the root off. A row that brought nothing eight times in a row
/// is looked at no more, and behind each call that brought no side twice as many calls go by until the next that looks.
#[derive(Drop)]
pub struct ClassHandler {
    class: Class,
    numbers: Vec<u32>,
    watched: Watched,
    implied: Vec<Implied>,
    narrowing_tries: Tries,
    rounding_tries: Tries,
    patience: Patience,
    rounding: Rounding,
}

impl ClassHandler {
    /// One that was never called. It takes no memory.
    pub fn new(alloc: Global, class: Class) -> ClassHandler {
        ClassHandler {
            class,
            numbers: Vec::new(alloc),
            watched: Watched::new(alloc),
            implied: Vec::new(alloc),
            narrowing_tries: Tries::new(alloc),
            rounding_tries: Tries::new(alloc),
            patience: Patience::new(),
            rounding: Rounding::new(alloc),
        }
    }

    /// Adds the sides that a row implies, and answers whether the call ends behind it: no point of the box keeps the
    /// row, or the list is full.
    fn narrow_by(
        &mut self,
        alloc: Global,
        view: &View<'_>,
        number: u32,
        reductions: &mut Vec<Reduction>,
    ) -> Result<bool, AllocError> {
        let Some(row) = view.own.get(number as usize) else {
            return Ok(true);
        };
        let before = reductions.len();
        let id = RowId::Own(number);
        let broken = add_reductions(alloc, view, id, row, &mut self.implied, reductions)?;
        self.narrowing_tries.note(number, reductions.len() > before);
        Ok(broken.is_some() || reductions.len() >= MOST_REDUCTIONS)
    }

    /// Adds the sides that the rows that wait imply.
    fn narrow_waiting(
        &mut self,
        alloc: Global,
        view: &View<'_>,
        reductions: &mut Vec<Reduction>,
    ) -> Result<(), AllocError> {
        for _ in 0..view.own.len() {
            let Some(number) = self.watched.next() else {
                return Ok(());
            };
            self.watched.end(number);
            if self.narrowing_tries.may_try(number)
                && self.narrow_by(alloc, view, number, reductions)?
            {
                return Ok(());
            }
        }
        Ok(())
    }

    /// Adds the sides that rows imply of whose columns a side has changed, where it is time to look, and notes whether
    /// there was one.
    fn narrow(
        &mut self,
        alloc: Global,
        view: &View<'_>,
        reductions: &mut Vec<Reduction>,
    ) -> Result<(), AllocError> {
        if self.narrowing_tries.is_spent() || !self.patience.is_turn() {
            return Ok(());
        }
        self.watched.look(view.bounds.as_slice())?;
        self.narrow_waiting(alloc, view, reductions)?;
        if reductions.is_empty() {
            self.patience.lose();
        } else if view.node < FIRST_RESTING {
            self.patience.gain(0);
        } else {
            self.patience.gain(REST);
        }
        Ok(())
    }

    /// The sides that rows imply.
    fn sides(&mut self, alloc: Global, view: &View<'_>) -> Result<Vec<Reduction>, AllocError> {
        let mut reductions = Vec::new(alloc);
        match self.narrow(alloc, view, &mut reductions) {
            Ok(()) => Ok(reductions),
            Err(fault) => Err(fault),
        }
    }

    /// The cuts of a round: of the rows that may be tried.
    fn cuts(&mut self, alloc: Global, view: &View<'_>) -> Result<Vec<Cut>, AllocError> {
        self.rounding.clear();
        if !self.rounding_tries.is_spent() && self.rounding.may_pay(view) {
            for number in &self.numbers {
                if self.rounding_tries.may_try(*number) {
                    let has_gained = self.rounding.round(alloc, view, *number)?;
                    self.rounding_tries.note(*number, has_gained);
                }
            }
        }
        self.rounding.choose(alloc)
    }
}

impl Plugin for ClassHandler {
    ghost told = { λ _. None };

    ghost label = { λ handler. class_name handler.class };

    fn name(&self) -> &str {
        match self.class {
            Class::Linear => "linear",
            Class::Knapsack => "knapsack",
            Class::SetPack => "setpack",
            Class::SetPart => "setpart",
        }
    }

    fn priority(&self) -> i32 {
        match self.class {
            Class::Linear => 40,
            Class::Knapsack => 30,
            Class::SetPack => 20,
            Class::SetPart => 10,
        }
    }

    fn init(&mut self, _alloc: Global) -> Result<(), AllocError> {
        Ok(())
    }

    fn init_solve(&mut self, _alloc: Global, view: &View<'_>) -> Result<(), AllocError> {
        self.rounding.begin();
        self.patience = Patience::new();
        list_rows(view, self.class, &mut self.numbers)?;
        let rows = view.own.len();
        self.narrowing_tries.begin(rows, self.numbers.as_slice())?;
        self.rounding_tries.begin(rows, self.numbers.as_slice())?;
        if self.numbers.is_empty() {
            return Ok(());
        }
        self.watched
            .take(view.own, view.whole, view.bounds.as_slice())
    }

    fn exit_solve(&mut self) {
        self.watched.calm();
    }

    fn exit(&mut self) {}
}

impl ConsHandler for ClassHandler {
    fn enforce(&mut self, alloc: Global, view: &View<'_>) -> Result<Enforced, AllocError> {
        if view.point.is_some() {
            return Ok(Enforced::Feasible);
        }
        if let Some(reduction) = self.sides(alloc, view)?.pop() {
            return Ok(Enforced::Reduced(reduction));
        }
        if let Some(cut) = self.cuts(alloc, view)?.pop() {
            return Ok(Enforced::Separated(cut));
        }
        Ok(Enforced::Infeasible)
    }

    fn separate(&mut self, alloc: Global, view: &View<'_>) -> Result<Vec<Cut>, AllocError> {
        self.cuts(alloc, view)
    }

    fn propagate(&mut self, alloc: Global, view: &View<'_>) -> Result<Vec<Reduction>, AllocError> {
        self.sides(alloc, view)
    }
}
