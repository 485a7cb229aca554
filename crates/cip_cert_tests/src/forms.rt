//! The same moves at random on a dictionary whose lines are whole where they can be, and on one whose lines are all
//! fractions: its program has one more column, fixed at 0, with 2^43 in each line.
use crate::entries::Program;
use crate::entries_drawn::{COLUMNS, ROWS};
use crate::moves::{cost_on, entry_at, exchange, flip, has_row, is_row_whole, value_of};
use crate::numbers::numbers_compare;
use crate::simplex_draws::Random;
use cip_dict::{Dict, EntryPlace, Line, MoveFault, Spare, Stand};
use cip_frac::Frac;
use cip_lin::Sides;
use std::alloc::{AllocError, Global};

const VARIABLES: u32 = COLUMNS + ROWS;

// what came of a move on both
enum Outcome {
    // it can't be made
    Impossible,
    Made,
    // an operation leaves the range on both
    Refused,
    // an operation leaves the range on the column more
    Apart,
    // the two answer otherwise
    Different,
}

// whether the two go on together
#[derive(Clone, Copy, PartialEq, Eq)]
enum Going {
    On,
    // an operation left the range on the column more
    Ends,
    // they differ
    Wrong,
}

#[derive(Drop)]
struct Counts {
    made: u32,
    refused: u32,
    rows: u32,
    whole_rows: u32,
}

#[derive(Drop)]
struct Pair<'a> {
    whole: &'a mut Dict,
    plain: &'a mut Dict,
}

fn add_great_column(program: &mut Program) -> Result<(), AllocError> {
    let great = Frac::from(8796093022208);
    program.columns.push(Sides {
        low: Some(Frac::zero()),
        high: Some(Frac::zero()),
    })?;
    program.costs.push(great)?;
    for row in 0..ROWS {
        program.entries.push((row, COLUMNS, great))?;
    }
    Ok(())
}

// a variable, where there is one more column
fn beyond(v: u32) -> u32 {
    if v < COLUMNS { v } else { v.saturating_add(1) }
}

// a place, where there is one more column
fn place_beyond(place: EntryPlace) -> EntryPlace {
    let line = match place.line {
        Line::Row(v) => Line::Row(beyond(v)),
        Line::Cost => Line::Cost,
    };
    let variable = match place.variable {
        Some(v) => Some(beyond(v)),
        None => None,
    };
    EntryPlace { line, variable }
}

// what came of an operation that leaves the range of fractions in the dictionary of fractions, and in the other one
fn refused(whole: Option<EntryPlace>, plain: EntryPlace) -> Outcome {
    match whole {
        Some(place) if place_beyond(place) == plain => Outcome::Refused,
        _ if plain.variable == Some(COLUMNS) => Outcome::Apart,
        _ => Outcome::Different,
    }
}

impl Pair<'_> {
    fn lines_agree(&self, i: u32) -> bool {
        for j in 0..VARIABLES {
            if entry_at(self.whole, i, j) != entry_at(self.plain, beyond(i), beyond(j)) {
                return false;
            }
        }
        cost_on(self.whole, i) == cost_on(self.plain, beyond(i))
    }

    fn agree(&self) -> bool {
        for v in 0..VARIABLES {
            if value_of(self.whole, v) != value_of(self.plain, beyond(v)) || !self.lines_agree(v) {
                return false;
            }
        }
        self.whole.cost() == self.plain.cost()
    }

    fn exchange(&mut self, i: u32, j: u32, to: Stand) -> Outcome {
        let first = exchange(self.whole, i, j, to);
        match (first, exchange(self.plain, beyond(i), beyond(j), to)) {
            (None, None) => Outcome::Impossible,
            (Some(Ok(())), Some(Ok(()))) => Outcome::Made,
            (Some(Ok(())), Some(Err(MoveFault::OutOfRange { place }))) => refused(None, place),
            (
                Some(Err(MoveFault::OutOfRange { place: here })),
                Some(Err(MoveFault::OutOfRange { place: there })),
            ) => refused(Some(here), there),
            _ => Outcome::Different,
        }
    }

    fn flip(&mut self, j: u32) -> Outcome {
        let first = flip(self.whole, j);
        match (first, flip(self.plain, beyond(j))) {
            (None, None) => Outcome::Impossible,
            (Some(Ok(())), Some(Ok(()))) => Outcome::Made,
            (Some(Err(here)), Some(Err(there))) => refused(Some(here.place), there.place),
            _ => Outcome::Different,
        }
    }

    fn make_move(&mut self, random: &mut Random) -> Outcome {
        let j = random.below(VARIABLES);
        if random.below(6) == 0 {
            return self.flip(j);
        }
        let i = random.below(VARIABLES);
        self.exchange(i, j, random.stand())
    }

    // counts the rows, unless one of the second dictionary is whole
    fn count_rows(&self, counts: &mut Counts) -> bool {
        for v in 0..VARIABLES {
            if is_row_whole(self.plain, beyond(v)) {
                return false;
            }
            if has_row(self.whole, v) {
                counts.rows = counts.rows.saturating_add(1);
            }
            if is_row_whole(self.whole, v) {
                counts.whole_rows = counts.whole_rows.saturating_add(1);
            }
        }
        true
    }

    // whether the two have one state, and the numbers of each line compare as its entries do
    fn compare(&self, counts: &mut Counts) -> Going {
        if self.agree() && numbers_compare(self.whole, VARIABLES) && self.count_rows(counts) {
            Going::On
        } else {
            Going::Wrong
        }
    }

    // a move, and a comparison after it
    fn step(&mut self, random: &mut Random, counts: &mut Counts) -> Going {
        match self.make_move(random) {
            Outcome::Impossible => return Going::On,
            Outcome::Apart => return Going::Ends,
            Outcome::Different => return Going::Wrong,
            Outcome::Made => counts.made = counts.made.saturating_add(1),
            Outcome::Refused => counts.refused = counts.refused.saturating_add(1),
        }
        self.compare(counts)
    }

    // forty moves, or as many as go together
    fn move_on(&mut self, random: &mut Random, counts: &mut Counts) -> bool {
        let mut going = self.compare(counts);
        for _ in 0..40 {
            if going != Going::On {
                break;
            }
            going = self.step(random, counts);
        }
        going != Going::Wrong
    }
}

// a state beside the first one of the program with the column more, compared before and after each move
fn goes_beside(
    whole: &mut Dict,
    alloc: Global,
    spare: &mut Spare,
    program: &Program,
    random: &mut Random,
    counts: &mut Counts,
) -> bool {
    match program.first(alloc, spare) {
        Some(mut plain) => {
            let mut pair = Pair {
                whole,
                plain: &mut plain,
            };
            let is_so = pair.move_on(random, counts);
            drop(pair);
            drop(plain);
            is_so
        }
        None => false,
    }
}

// both states of one program, which is empty
fn moves_alike(
    alloc: Global,
    spare: &mut Spare,
    program: &mut Program,
    random: &mut Random,
    counts: &mut Counts,
) -> bool {
    if random.fill_entries(program).is_err() {
        return false;
    }
    match program.first(alloc, spare) {
        Some(mut whole) => {
            let is_so = add_great_column(program).is_ok()
                && goes_beside(&mut whole, alloc, spare, program, random, counts);
            drop(whole);
            is_so
        }
        None => false,
    }
}

// the first of a thousand programs that don't move alike, or a thousand
fn first_wrong(alloc: Global, spare: &mut Spare, counts: &mut Counts) -> u32 {
    let mut random = Random::new(20261127);
    for number in 0..1000 {
        let mut program = Program::new(alloc);
        let is_so = moves_alike(alloc, spare, &mut program, &mut random, counts);
        drop(program);
        if !is_so {
            return number;
        }
    }
    1000
}

#[test]
fn a_thousand_programs_move_alike_on_both_forms(rt: HostRuntime) {
    let mut spare = Spare::new(rt.alloc());
    let mut counts = Counts {
        made: 0,
        refused: 0,
        rows: 0,
        whole_rows: 0,
    };
    let wrong = first_wrong(rt.alloc(), &mut spare, &mut counts);
    drop(spare);
    assert_eq!(rt; wrong, 1000);
    let is_tried = counts.made > 3000 && counts.refused > 10;
    assert!(rt; is_tried && counts.whole_rows > counts.rows / 2);
}
