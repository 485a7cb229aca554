//! Which columns are basic, and which rows are loose.
use crate::given::number_of;
use crate::rows::push_number;
use crate::{Given, Guess, Standing};
use std::alloc::{AllocError, Global};

/// No place among the basic columns.
const NOWHERE: u32 = u32::MAX;

/// The basic columns and the loose rows, by rising number, and for each column its place among the basic ones.
#[derive(Drop)]
pub(crate) struct Placement {
    pub(crate) columns: Vec<u32>,
    pub(crate) rows: Vec<u32>,
    places: Vec<u32>,
}

impl Placement {
    /// Nothing.
    pub(crate) fn new(alloc: Global) -> Placement {
        Placement {
            columns: Vec::new(alloc),
            rows: Vec::new(alloc),
            places: Vec::new(alloc),
        }
    }

    /// Lists the basic columns, with the place of each column among them, and the loose rows; whether there are as
    /// many.
    pub(crate) fn list(&mut self, guess: &Guess, given: &Given) -> Result<bool, AllocError> {
        self.columns.clear();
        self.rows.clear();
        self.places.clear();
        let columns = given.columns();
        for variable in 0..columns.saturating_add(given.rows()) {
            let number = number_of(variable);
            let is_basic = guess.standing(number) == Standing::Basic;
            if variable >= columns {
                if !is_basic {
                    push_number(&mut self.rows, number_of(variable - columns))?;
                }
                continue;
            }
            let mut place = NOWHERE;
            if is_basic {
                place = number_of(self.columns.len());
                push_number(&mut self.columns, number)?;
            }
            push_number(&mut self.places, place)?;
        }
        Ok(self.columns.len() == self.rows.len())
    }

    /// The place of a column among the basic ones, if it is one.
    pub(crate) fn place(&self, column: u32) -> Option<usize> {
        match self.places.get(column as usize) {
            Some(place) if *place != NOWHERE => Some(*place as usize),
            _ => None,
        }
    }
}
