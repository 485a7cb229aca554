//! The point held, and the points that are offered for it.
ghost use Rattle.std.specs.Prelude.{◌≡◌, length, IfOk, MatchOption};
ghost use Rattle.cip_problem.specs.WellFormed.{columns};
ghost use Rattle.cip_model.specs.Verdicts.{verdict_of};
ghost use Rattle.cip_incumbent.specs.HeldPoint.{nothing_held, is_cheaper, taken_if, offered, after_taking, after_offer, HoldsPointOf};

use crate::offers::Offered;
use cip_model::{Frac, Program, Verdict};
use std::alloc::{AllocError, Global};
use std::marker::Model;

/// The cheapest feasible point that was offered, with its cost in the minimised form. Contracts see it with the number
/// of columns for which there is room.
#[derive(Drop)]
pub struct Incumbent {
    cost: Option<Frac>,
    point: Vec<Frac>,
}

impl Model for Incumbent {
    ghost use Rattle.cip_incumbent.specs.HeldPoint.{Holding, holding_code};
    ghost use Rattle.cip_incumbent.specs.Inside.{shown};

    ghost Value = { Holding };

    ghost coded = { holding_code };

    ghost view = { shown };
}

impl Incumbent {
    /// Room for a point of the program, and nothing held. `Err` comes where the memory for it was refused; nothing
    /// else takes any.
    pub fn new(alloc: Global, program: &Program) -> Result<Incumbent, AllocError>
        ensures { IfOk result (λ incumbent. incumbent ≡ nothing_held (columns program.now)) }
    {
        let point = vec![in alloc; Frac::zero(); program.columns()]?;
        Ok(Incumbent { cost: None, point })
    }

    /// For points of how many columns there is room.
    pub fn columns(&self) -> usize
        ensures { result ≡ self.now.columns }
    {
        self.point.len()
    }

    // Whether a cost is less than that of the point held; each is where none is held.
    fn is_better(&self, cost: Frac) -> bool
        ensures { result ≡ is_cheaper cost self.now.best }
    {
        match self.cost {
            None => true,
            Some(held) => cost < held,
        }
    }

    /// Offers a point of the program, with a value for each column. `Taken` comes exactly where it is feasible and
    /// cheaper than the point held, or none is held, and then it is held at its cost. `NotBetter` comes exactly where
    /// it is feasible and no cheaper, and `Breaks` with the verdict of the test exactly where that isn't `Feasible`;
    /// both leave what is held as it was.
    pub fn offer(&mut self, program: &Program, point: &[Frac]) -> Offered
        requires room { self.old.columns ≡ columns program.now }
        requires values { length point.now ≡ columns program.now }
        ensures answer { result ≡ offered self.old.best (verdict_of program.now point.now) }
        ensures after { self.new ≡ after_offer result program.now point.now self.old }
        ensures held { HoldsPointOf program.now self.old → HoldsPointOf program.now self.new }
    {
        match program.check(point) {
            Verdict::Feasible(cost) => self.offer_at(cost, point),
            verdict => Offered::Breaks(verdict),
        }
    }

    /// Offers a point that is known to be feasible, at this cost, which isn't tested again. `Taken` comes exactly where
    /// that is less than the cost held, or none is held, and then it is held at this cost; else `NotBetter` comes, and
    /// what is held stays as it was.
    pub fn offer_at(&mut self, cost: Frac, point: &[Frac]) -> Offered
        requires { length point.now ≡ self.old.columns }
        ensures answer { result ≡ taken_if (is_cheaper cost self.old.best) }
        ensures after { self.new ≡ after_taking result cost point.now self.old }
    {
        if !self.is_better(cost) {
            return Offered::NotBetter;
        }
        self.point.as_mut_slice().copy_from_slice(point);
        self.cost = Some(cost);
        Offered::Taken
    }

    /// The cost and the point held, `None` where none is held.
    pub fn held(&self) -> Option<(Frac, &[Frac])>
        ensures { MatchOption result (self.now.best ≡ None)
            (λ held. self.now.best ≡ Some (record { cost = held.0; point = held.1.now })) }
    {
        match self.cost {
            None => None,
            Some(cost) => Some((cost, self.point.as_slice())),
        }
    }
}
