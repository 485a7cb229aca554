//! A basis that is guessed, and the systems that are solved for it.
use crate::combos::{empty_combo, put_line, put_multiples, put_own_row};
use crate::lists::put_at;
use crate::matrix::make_matrix;
use crate::placement::Placement;
use crate::values::{put_right_sides, put_values};
use crate::{Direction, Given, Guess, Length, Outcome, Standing, System};
use cip_frac::Frac;
use cip_lin::Combo;
use std::alloc::{AllocError, Global};

/// A basis that is guessed, kept from program to program, and the lists that its systems are solved in.
#[derive(Drop)]
pub struct Basis {
    pub(crate) guess: Guess,
    system: System,
    placement: Placement,
    scales: Vec<u64>,
    right: Vec<Frac>,
    solved: Vec<Frac>,
    /// How the last guess ended, if its multipliers may show something: where it gave up over a table that stands, as
    /// an optimal one, by those of the costs.
    pub(crate) outcome: Option<Outcome>,
    /// Whether its matrix stands, so that systems can be solved.
    pub(crate) is_made: bool,
    /// Whether what was solved for the last guess was in the range, so that rounding may be why nothing is shown.
    pub(crate) is_in_range: bool,
    // whether the table of the last guess was made anew, with less rounding
    is_anew: bool,
}

impl Basis {
    /// No basis yet.
    pub fn new(alloc: Global) -> Basis {
        Basis {
            guess: Guess::new(alloc),
            system: System::new(alloc),
            placement: Placement::new(alloc),
            scales: Vec::new(alloc),
            right: Vec::new(alloc),
            solved: Vec::new(alloc),
            outcome: None,
            is_made: false,
            is_in_range: false,
            is_anew: false,
        }
    }

    /// Where a variable stands: columns by number, then rows.
    pub fn standing(&self, variable: u32) -> Standing {
        self.guess.standing(variable)
    }

    /// Whether the last guess was one with less rounding.
    pub fn is_anew(&self) -> bool {
        self.is_anew
    }

    /// Makes the matrix of the basis, and eliminates it; whether it can be solved.
    fn make(&mut self, alloc: Global, given: &Given) -> Result<bool, AllocError> {
        if !self.placement.list(&self.guess, given)? {
            return Ok(false);
        }
        let made = make_matrix(
            alloc,
            given,
            &self.placement,
            &mut self.system,
            &mut self.scales,
        )?;
        if !made {
            return Ok(false);
        }
        self.system.eliminate(alloc)
    }

    /// Guesses a basis, and readies it to be solved; none where that fails. With `anew` its table is made anew.
    pub(crate) fn ready(
        &mut self,
        alloc: Global,
        given: &Given,
        anew: bool,
    ) -> Result<Option<Outcome>, AllocError> {
        self.outcome = None;
        self.is_made = false;
        self.is_in_range = false;
        self.is_anew = anew;
        let Some(outcome) = self.guess.guess(alloc, given, anew)? else {
            if self.guess.has_table() {
                self.outcome = Some(Outcome::Optimal);
            }
            return Ok(None);
        };
        if outcome == Outcome::Endless {
            return Ok(None);
        }
        self.outcome = Some(outcome);
        self.is_made = self.make(alloc, given)?;
        if self.is_made {
            return Ok(Some(outcome));
        }
        self.guess.forget();
        Ok(None)
    }

    /// Puts the values of the point of the basis into a list; whether all are there, and their parts at most so long.
    fn put_point(
        &mut self,
        given: &Given,
        size: Length,
        point: &mut Vec<Frac>,
    ) -> Result<bool, AllocError> {
        self.is_in_range = true;
        if !put_values(&self.guess, given, false, point)? {
            return Ok(false);
        }
        self.is_in_range = false;
        let are_there = put_right_sides(
            &self.guess,
            given,
            &self.placement,
            self.scales.as_slice(),
            point.as_slice(),
            &mut self.right,
        )?;
        let (right, out) = (self.right.as_slice(), &mut self.solved);
        if !are_there || !self.system.solve(right, Direction::Rows, size, out)? {
            return Ok(false);
        }
        for (place, column) in self.placement.columns.iter().enumerate() {
            if let Some(value) = self.solved.get(place) {
                put_at(point.as_mut_slice(), *column as usize, *value);
            }
        }
        self.is_in_range = true;
        Ok(true)
    }

    /// The point of the basis, where parts of its values are at most so long.
    pub(crate) fn point(
        &mut self,
        alloc: Global,
        given: &Given,
        size: Length,
    ) -> Result<Option<Vec<Frac>>, AllocError> {
        let mut point = Vec::new(alloc);
        match self.put_point(given, size, &mut point) {
            Ok(true) => Ok(Some(point)),
            Ok(false) => Ok(None),
            Err(_) => Err(AllocError),
        }
    }

    /// Puts the multipliers of the costs into a combination, or those that are to show that a variable can't be brought
    /// between its sides; whether their parts are at most so long.
    fn put_combo(
        &mut self,
        given: &Given,
        outcome: Outcome,
        size: Length,
        combo: &mut Combo,
    ) -> Result<bool, AllocError> {
        let (broken, is_turned) = match outcome {
            Outcome::Broken { variable, below } => (Some(variable), below),
            _ => (None, false),
        };
        put_line(given, &self.placement, broken, &mut self.right)?;
        self.is_in_range = false;
        let (right, out) = (self.right.as_slice(), &mut self.solved);
        if !self.system.solve(right, Direction::Columns, size, out)? {
            return Ok(false);
        }
        self.is_in_range = put_multiples(
            given,
            &self.placement,
            self.scales.as_slice(),
            self.solved.as_slice(),
            is_turned,
            &mut combo.rows,
        )?;
        if let (Some(variable), true) = (broken, self.is_in_range) {
            put_own_row(given, variable, is_turned, &mut combo.rows)?;
        }
        Ok(self.is_in_range)
    }

    /// The multipliers of the costs as a combination, where the guess ended with an optimal basis, or those that are to
    /// show that a variable can't be brought between its sides, where it ended so; none where their parts are longer.
    pub(crate) fn combo(
        &mut self,
        alloc: Global,
        given: &Given,
        outcome: Outcome,
        size: Length,
    ) -> Result<Option<Combo>, AllocError> {
        let mut combo = empty_combo(alloc);
        match self.put_combo(given, outcome, size, &mut combo) {
            Ok(true) => Ok(Some(combo)),
            Ok(false) => Ok(None),
            Err(_) => Err(AllocError),
        }
    }
}
