//! Random programs with semi-continuous columns: the search of each ends as plain enumeration of its choices does.
use crate::drawn::{HIGHS, RIGHT_SIDES, Sheet, Words, word};
use crate::endings::{Ending, end_of_search};
use crate::programs::program_of;
use cip_frac::Frac;
use std::alloc::Global;

/// How many programs are drawn.
const PROGRAMS: u64 = 1_000;

const SENSES: Words = [
    "MIN", "MAX", "MIN", "MAX", "MIN", "MAX", "MIN", "MAX", "MIN", "MAX", "MIN", "MAX", "MIN",
    "MAX", "MIN", "MAX",
];

const ROW_TYPES: Words = [
    "L", "L", "L", "L", "L", "L", "G", "G", "G", "G", "G", "G", "E", "E", "E", "E",
];

const COSTS: Words = [
    "-6", "-5", "-4", "-3", "-2", "-2", "-1", "-1", "1", "1", "2", "2", "3", "4", "5", "6",
];

const ENTRIES: Words = [
    "-4", "-3", "-2", "-1", "-1", "0", "0", "0", "1", "1", "1", "2", "2", "3", "4", "5",
];

const LOWS: Words = [
    "0", "0", "0", "0", "1", "1", "1", "1", "2", "2", "2", "2", "3", "3", "3", "3",
];

/// Records of columns that are not semi-continuous: whole, plain, and plain without a high side.
const RECORDS: Words = [
    "UI", "UI", "UI", "UI", "UI", "UI", "UI", "UP", "UP", "UP", "UP", "UP", "UP", "UP", "UP", "PL",
];

/// A column's name, and its bit in a set of columns.
#[derive(Clone, Copy)]
struct Column {
    name: &'static str,
    bit: u64,
}

impl Column {
    /// Its record and its high side, where these are drawn for a plain one.
    fn record(
        self,
        semi: u64,
        on: Option<u64>,
        drawn: &'static str,
        high: &'static str,
    ) -> (&'static str, &'static str) {
        match on {
            _ if semi & self.bit == 0 => (drawn, high),
            None => ("SC", high),
            Some(on) if on & self.bit == 0 => ("FX", "0"),
            Some(_) => ("UP", high),
        }
    }
}

const COLUMNS: [Column; 5] = [
    Column { name: "a", bit: 1 },
    Column { name: "b", bit: 2 },
    Column { name: "c", bit: 4 },
    Column { name: "d", bit: 8 },
    Column { name: "e", bit: 16 },
];

const ROWS: [&str; 3] = ["R", "S", "T"];

/// The columns of a program, and the set of those that are semi-continuous.
#[derive(Clone, Copy)]
struct Shape {
    columns: &'static [Column],
    semi: u64,
}

/// The state of a linear congruential generator.
#[derive(Clone, Copy)]
struct Draws {
    state: u64,
}

impl Draws {
    /// Those of the program of this number.
    fn of(number: u64) -> Draws {
        Draws {
            state: number.wrapping_mul(0x9E37_79B9_7F4A_7C15),
        }
    }

    /// The upper half of the next state.
    fn draw(&mut self) -> u64 {
        let state = self.state.wrapping_mul(6_364_136_223_846_793_005);
        self.state = state.wrapping_add(1_442_695_040_888_963_407);
        self.state / 0x1_0000_0000
    }

    /// One of these words.
    fn word(&mut self, words: &Words) -> &'static str {
        word(words, self.draw())
    }

    /// Two to five columns, of which one or more are semi-continuous.
    fn shape(&mut self) -> Shape {
        let (columns, all) = match self.draw() % 4 {
            0 => (&COLUMNS[..2], 3),
            1 => (&COLUMNS[..3], 7),
            2 => (&COLUMNS[..4], 15),
            _ => (&COLUMNS[..5], 31),
        };
        match self.draw() & all {
            0 => Shape { columns, semi: all },
            semi => Shape { columns, semi },
        }
    }

    /// The first one to three rows.
    fn rows(&mut self) -> &'static [&'static str] {
        match self.draw() % 3 {
            0 => &ROWS[..1],
            1 => &ROWS[..2],
            _ => &ROWS,
        }
    }

    fn put_rows(&mut self, sheet: &mut Sheet, rows: &[&'static str]) {
        for row in rows {
            let kind = self.word(&ROW_TYPES);
            sheet.put(&[" ", kind, " ", row, "\n"]);
        }
    }

    /// Writes what is drawn for a name at each of these rows.
    fn put_entries(
        &mut self,
        sheet: &mut Sheet,
        name: &'static str,
        rows: &[&'static str],
        words: &Words,
    ) {
        for row in rows {
            let entry = self.word(words);
            sheet.put(&[" ", name, " ", row, " ", entry, "\n"]);
        }
    }

    fn put_columns(&mut self, sheet: &mut Sheet, rows: &[&'static str], columns: &[Column]) {
        for column in columns {
            self.put_entries(sheet, column.name, &["COST"], &COSTS);
            self.put_entries(sheet, column.name, rows, &ENTRIES);
        }
    }

    /// Writes the sides of a column; where choices are made, a semi-continuous one that is off has 0 alone.
    fn put_sides(&mut self, sheet: &mut Sheet, column: Column, semi: u64, on: Option<u64>) {
        let low = self.word(&LOWS);
        let drawn = self.word(&RECORDS);
        let high = self.word(&HIGHS);
        let (record, high) = column.record(semi, on, drawn, high);
        sheet.put(&[" LO B ", column.name, " ", low, "\n"]);
        sheet.put(&[" ", record, " B ", column.name, " ", high, "\n"]);
    }

    fn put_bounds(&mut self, sheet: &mut Sheet, shape: Shape, on: Option<u64>) {
        for column in shape.columns {
            self.put_sides(sheet, *column, shape.semi, on);
        }
    }

    /// Writes a program: with its semi-continuous columns, or without them, where choices are made for these.
    fn put_program(&mut self, sheet: &mut Sheet, on: Option<u64>) {
        let shape = self.shape();
        let rows = self.rows();
        let sense = self.word(&SENSES);
        sheet.put(&["OBJSENSE ", sense, "\nROWS\n N COST\n"]);
        self.put_rows(sheet, rows);
        sheet.put(&["COLUMNS\n"]);
        self.put_columns(sheet, rows, shape.columns);
        sheet.put(&["RHS\n"]);
        self.put_entries(sheet, "RHS", rows, &RIGHT_SIDES);
        sheet.put(&["BOUNDS\n"]);
        self.put_bounds(sheet, shape, on);
        sheet.put(&["ENDATA\n"]);
    }
}

fn searched_text(alloc: Global, text: &str) -> Ending {
    match program_of(alloc, text) {
        Some(program) => {
            let ending = end_of_search(alloc, &program);
            drop(program);
            ending
        }
        None => Ending::Other,
    }
}

/// What the search of a program ends with, where these choices are made in front.
fn searched_with(alloc: Global, number: u64, on: Option<u64>) -> Ending {
    let mut sheet = Sheet::empty(alloc);
    Draws::of(number).put_program(&mut sheet, on);
    let ending = match sheet.text() {
        Some(text) => searched_text(alloc, text),
        None => Ending::Other,
    };
    drop(sheet);
    ending
}

/// A search comes to this cost, or to a lower one.
fn comes_to(ending: Ending, cost: Frac) -> bool {
    match ending {
        Ending::Optimal(least) => least <= cost,
        Ending::Unbounded => true,
        _ => false,
    }
}

/// Where choices are made a program ends no better than where they are left to the search, and both ends are known.
fn is_no_better(chosen: Ending, left: Ending) -> bool {
    match chosen {
        Ending::Optimal(cost) => comes_to(left, cost),
        Ending::Infeasible => left != Ending::Other,
        Ending::Unbounded => left == Ending::Unbounded,
        Ending::Other => false,
    }
}

/// The search of a program ends as the best of all choices, of which one is off or on for each semi-continuous column.
fn agrees(alloc: Global, number: u64) -> bool {
    let semi = Draws::of(number).shape().semi;
    let left = searched_with(alloc, number, None);
    let mut is_met = false;
    for on in 0..32 {
        if on & semi == on {
            let chosen = searched_with(alloc, number, Some(on));
            if !is_no_better(chosen, left) {
                return false;
            }
            is_met = is_met || chosen == left;
        }
    }
    is_met
}

/// The first program whose search ends otherwise; their number where there is none.
fn first_wrong(alloc: Global) -> u64 {
    for number in 0..PROGRAMS {
        if !agrees(alloc, number) {
            return number;
        }
    }
    PROGRAMS
}

#[test]
fn choices_are_enumerated(rt: HostRuntime) {
    assert_eq!(rt; first_wrong(rt.alloc()), PROGRAMS);
}
