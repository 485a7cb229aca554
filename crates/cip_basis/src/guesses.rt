//! Guesses, kept from program to program.
use crate::anew::make_anew;
use crate::dual::{Lists, Tolerances, dual_move, worst};
use crate::given::Given;
use crate::moves::settle;
use crate::multipliers::{RowMultiplier, list_rounded, rounded_number};
use crate::primal::primal_move;
use crate::scaling::{cost_up, make_scaled, row_up};
use crate::stops::Stop;
use crate::table::Table;
use crate::variables::{Standing, Variable, Variables};
use cip_lin::Frac;
use std::alloc::{AllocError, Global};

/// A table has at most so many entries.
const MOST_ENTRIES: u64 = 1 << 24;

/// After so many moves the table is made anew.
const MOST_MOVES_KEPT: u32 = 1_000;

// The most moves of a guess, beside two for each column and row.
const FEW_MOVES: usize = 2_000;

// The most entries that a guess writes.
const MOST_WORK: u64 = 1 << 33;

/// How a guess ends. Any of it may be wrong.
#[derive(Clone, Copy, PartialEq, Eq)]
pub enum Outcome {
    /// The basis is optimal.
    Optimal,
    /// This variable, which is basic, can't be brought between its sides, being below, or above, them.
    Broken { variable: u32, below: bool },
    /// The cost falls without end.
    Endless,
}

/// A basis of a linear program and its table, over whole numbers of 64 bits that are rounded. They are kept from
/// program to program, where only the sides of columns change or rows come at the end. What is said may be wrong: it
/// names variables, and no value comes from it.
#[derive(Drop)]
pub struct Guess {
    table: Table,
    variables: Variables,
    lists: Lists,
    ids: Vec<u64>,
    columns: usize,
    cost_up: i32,
    moves: u32,
    is_made: bool,
    // whether the table is one of the last program
    has_table: bool,
    // whether numbers of the program don't fit, which has as many columns and at least as many rows as are kept
    is_unfit: bool,
}

impl Guess {
    /// No guess yet.
    pub fn new(alloc: Global) -> Guess {
        Guess {
            table: Table::new(alloc),
            variables: Variables::new(alloc),
            lists: Lists {
                picks: Vec::new(alloc),
                ways: Vec::new(alloc),
                values: Vec::new(alloc),
            },
            ids: Vec::new(alloc),
            columns: 0,
            cost_up: 0,
            moves: 0,
            is_made: false,
            has_table: false,
            is_unfit: false,
        }
    }

    /// Where a variable stands: columns by number, then rows.
    pub fn standing(&self, variable: u32) -> Standing {
        self.variables.get(variable).standing
    }

    /// The value of a column at the end of the last guess, rounded to a multiple of 2^-20; none where it has over 62
    /// bits then. It may be wrong.
    pub fn value(&self, column: u32) -> Option<Frac> {
        let variable = self.variables.get(column);
        rounded_number(variable.value, variable.up.wrapping_neg())
    }

    /// Forgets the basis: the next guess begins with that of the rows.
    pub fn forget(&mut self) {
        self.is_made = false;
    }

    /// Whether there is a table of the last program, as there may be also where the guess gave up: the multipliers of
    /// its costs can be listed.
    pub fn has_table(&self) -> bool {
        self.has_table
    }

    /// Lists the rows that are loose with their multipliers where a guess has ended so, rounded to multiples of 2^-20:
    /// those of the costs where the basis is optimal, and where a variable can't be brought between its sides what that
    /// takes of them. Answers whether there are such. Any of it may be wrong. `Err` where memory was refused.
    pub fn list_multipliers(
        &self,
        outcome: Outcome,
        out: &mut Vec<RowMultiplier>,
    ) -> Result<bool, AllocError> {
        let loose = self.table.loose.as_slice();
        let (variables, columns) = (&self.variables, self.columns);
        match outcome {
            Outcome::Optimal => {
                let costs = self.table.costs.as_slice();
                list_rounded(costs, loose, variables, columns, self.cost_up, out)
            }
            Outcome::Broken { variable, below: _ } => match self.table.line_of(variable) {
                Some(line) => {
                    let own = variables.up(variable as usize);
                    list_rounded(line, loose, variables, columns, own, out)
                }
                None => Ok(false),
            },
            Outcome::Endless => Ok(false),
        }
    }

    /// Begins with the basis of the rows, unless numbers of a program of as many columns and no more rows didn't fit.
    fn begin(&mut self, alloc: Global, given: &Given) -> Result<(), Stop> {
        let known = self.columns.saturating_add(given.rows());
        if self.is_unfit && self.columns == given.columns() && self.variables.len() <= known {
            return Err(Stop::GaveUp);
        }
        make_scaled(alloc, given, &mut self.variables)?;
        self.columns = given.columns();
        self.cost_up = cost_up(given.costs, &self.variables);
        self.moves = 0;
        self.is_unfit = true;
        self.table
            .fill(alloc, given, &self.variables, self.cost_up)?;
        self.is_unfit = false;
        self.is_made = true;
        Ok(())
    }

    /// Takes rows that came at the end, which are basic.
    fn grow(&mut self, given: &Given) -> Result<(), Stop> {
        let known = self.variables.len().saturating_sub(self.columns);
        for number in known..given.rows() {
            let mut variable = Variable::new(Standing::Basic);
            if let Some(row) = given.row(number) {
                variable.up = row_up(row, &self.variables);
            }
            self.variables.push(variable)?;
        }
        Ok(())
    }

    /// Whether what is kept is of this program, but for rows that came at the end.
    fn is_of(&self, given: &Given) -> bool {
        let Some((front, _)) = given.ids.split_at_checked(self.ids.len()) else {
            return false;
        };
        let rows = given.own.len().saturating_add(front.len());
        self.is_made
            && self.columns == given.columns()
            && self.variables.len() == self.columns.saturating_add(rows)
            && front == self.ids.as_slice()
    }

    /// Readies the table for a program.
    fn ready(&mut self, alloc: Global, given: &Given, anew: bool) -> Result<(), Stop> {
        let is_kept = self.is_of(given);
        let is_longer = self.ids.len() < given.ids.len();
        if !is_kept || is_longer {
            self.ids.clear();
            self.ids.extend_from_slice(given.ids)?;
        }
        if !is_kept {
            return self.begin(alloc, given);
        }
        if is_longer {
            self.grow(given)?;
        }
        if is_longer || anew || self.moves > MOST_MOVES_KEPT {
            self.moves = 0;
            let up = self.cost_up;
            return make_anew(alloc, given, &mut self.table, &mut self.variables, up);
        }
        Ok(())
    }

    /// One move; where none is made, how the guess ends.
    fn step(&mut self, tolerances: Tolerances) -> Result<Option<Outcome>, Stop> {
        let (table, variables) = (&mut self.table, &mut self.variables);
        let Some(leaving) = worst(table, variables, tolerances.outside) else {
            return primal_move(table, variables, tolerances.rate);
        };
        let variable = leaving.variable;
        let below = leaving.standing == Standing::Low;
        if dual_move(table, variables, &mut self.lists, leaving, tolerances)? {
            Ok(None)
        } else {
            Ok(Some(Outcome::Broken { variable, below }))
        }
    }

    /// Forms all values anew.
    fn settle(&mut self, rate: i64) -> Result<(), Stop> {
        let lines = self.table.lines.len() as u64;
        let entries = lines.wrapping_mul(self.table.loose.len() as u64);
        self.table.spend(entries)?;
        settle(
            &self.table,
            &mut self.variables,
            rate,
            &mut self.lists.values,
        )
    }

    /// Makes moves, at most so many; an end is believed only on values that were formed anew.
    fn run(&mut self, limit: usize, tolerances: Tolerances) -> Result<Outcome, Stop> {
        self.settle(tolerances.rate)?;
        let mut is_fresh = true;
        for _ in 0..limit {
            match self.step(tolerances)? {
                None => {
                    self.moves = self.moves.saturating_add(1);
                    is_fresh = false;
                }
                Some(outcome) if is_fresh => return Ok(outcome),
                Some(_) => {
                    self.settle(tolerances.rate)?;
                    is_fresh = true;
                }
            }
        }
        Err(Stop::GaveUp)
    }

    /// The guess on a program.
    fn guessed(&mut self, alloc: Global, given: &Given, anew: bool) -> Result<Outcome, Stop> {
        self.has_table = false;
        let height = (given.rows() as u64).saturating_add(1);
        if (given.columns() as u64).saturating_mul(height) > MOST_ENTRIES {
            return Err(Stop::GaveUp);
        }
        self.table.work = MOST_WORK;
        self.ready(alloc, given, anew)?;
        self.has_table = true;
        self.variables.take_sides(given);
        let all = self.variables.len();
        let limit = FEW_MOVES.saturating_add(all).saturating_add(all);
        self.run(limit, Tolerances::of_table(anew))
    }

    /// Guesses how a linear program ends, from the basis of the last guess: where the variables stand then is told by
    /// `standing`. With `anew` the table is made anew, and less is passed over as rounding. It gives up, `None`, where
    /// the table has over 2^24 entries, a number is too great, over 2,000 moves and two for each column and row are
    /// made, or over 2^33 entries are written, and then forgets the basis. Where numbers of the program themselves are
    /// too great it doesn't begin again on one of as many columns and no fewer rows. `Err` where memory was refused.
    pub fn guess(
        &mut self,
        alloc: Global,
        given: &Given,
        anew: bool,
    ) -> Result<Option<Outcome>, AllocError> {
        match self.guessed(alloc, given, anew) {
            Ok(outcome) => Ok(Some(outcome)),
            Err(Stop::GaveUp) => {
                self.is_made = false;
                Ok(None)
            }
            Err(Stop::NoMemory) => {
                self.is_made = false;
                self.is_unfit = false;
                Err(AllocError)
            }
        }
    }
}
