//! Texts of programs that are drawn: with rows of one term, equalities of two, rows with equal terms, rows that say
//! nothing new, open sides and semi-continuous columns.
use std::alloc::Global;

/// Sixteen words, of which one is drawn.
pub(crate) type Words = [&'static str; 16];

const ROW_TYPES: Words = [
    "L", "L", "L", "L", "L", "L", "L", "G", "G", "G", "G", "G", "G", "G", "E", "E",
];

const COSTS: Words = [
    "-6", "-4", "-3", "-2", "-2", "-1", "0", "0", "0", "1", "1", "2", "2", "3", "4", "6",
];

const ENTRIES: Words = [
    "-4", "-3", "-2", "-1", "-1", "0", "0", "0", "0", "1", "1", "1", "2", "2", "3", "5",
];

const FACTORS: Words = [
    "-4", "-3", "-2", "-2", "-1", "-1", "-1", "1", "1", "1", "1", "2", "2", "3", "4", "5",
];

pub(crate) const RIGHT_SIDES: Words = [
    "-5", "-3", "-1", "0", "1", "2", "3", "4", "5", "6", "7", "8", "9", "11", "13", "15",
];

const LOWS: Words = [
    "0", "0", "0", "0", "0", "0", "0", "0", "1", "1", "1", "1", "2", "2", "3", "3",
];

pub(crate) const HIGHS: Words = [
    "1", "2", "3", "3", "4", "4", "5", "5", "6", "6", "7", "7", "8", "8", "9", "9",
];

/// Records of columns: whole, plain, fixed, plain without a high side, and semi-continuous.
const RECORDS: Words = [
    "UI", "UI", "UI", "UI", "UI", "UI", "UI", "UP", "UP", "UP", "UP", "FX", "FX", "PL", "SC", "SC",
];

const COLUMNS: [&str; 5] = ["a", "b", "c", "d", "e"];

/// The rows by number: two of any terms, an equality of two terms, one of one term, one with the first one's terms, and
/// one that says little.
const ROWS: [&str; 6] = ["R", "S", "T", "U", "V", "W"];

/// A number by what it is drawn for.
fn draw(number: u64, what: u64, at: u64) -> u64 {
    let seed = number
        .wrapping_mul(0x9E37_79B9_7F4A_7C15)
        .wrapping_add(what.wrapping_mul(0xD1B5_4A32_D192_ED03))
        .wrapping_add(at.wrapping_mul(0xA24B_AED4_963E_E407));
    let once = (seed ^ (seed >> 30)).wrapping_mul(0xBF58_476D_1CE4_E5B9);
    let twice = (once ^ (once >> 27)).wrapping_mul(0x94D0_49BB_1331_11EB);
    twice ^ (twice >> 31)
}

/// One of these words.
pub(crate) fn word(words: &Words, drawn: u64) -> &'static str {
    words[(drawn % 16) as usize]
}

/// A program by its number: how many columns it has, and which rows.
#[derive(Clone, Copy)]
struct Shape {
    number: u64,
    columns: usize,
    rows: u64,
}

impl Shape {
    fn of(number: u64) -> Shape {
        Shape {
            number,
            columns: 2 + (draw(number, 1, 0) % 4) as usize,
            rows: 1 + draw(number, 2, 0) % 63,
        }
    }

    fn has(self, row: usize) -> bool {
        row < 6 && (self.rows >> row) & 1 == 1
    }

    /// Whether a column is one of the first ones behind a drawn one, going round.
    fn is_near(self, row: u64, column: u64, count: u64) -> bool {
        let all = self.columns as u64;
        let first = draw(self.number, 3, row) % 5;
        all > 0 && column.wrapping_add(5).wrapping_sub(first) % all < count
    }

    /// The coefficient of a column in a row.
    fn entry(self, row: u64, column: u64) -> &'static str {
        match row {
            0 | 1 => word(&ENTRIES, draw(self.number, 4 + row, column)),
            2 if self.is_near(row, column, 2) => word(&FACTORS, draw(self.number, 6, column)),
            3 if self.is_near(row, column, 1) => word(&FACTORS, draw(self.number, 7, column)),
            4 => word(&ENTRIES, draw(self.number, 4, column)),
            5 => word(&HIGHS, draw(self.number, 8, column)),
            _ => "0",
        }
    }

    fn row_type(self, row: u64) -> &'static str {
        match row {
            2 => "E",
            5 => "L",
            _ => word(&ROW_TYPES, draw(self.number, 9, row)),
        }
    }

    fn right_side(self, row: u64) -> &'static str {
        match row {
            5 => "100",
            _ => word(&RIGHT_SIDES, draw(self.number, 10, row)),
        }
    }
}

/// The text of a program that is drawn.
#[derive(Drop)]
pub(crate) struct Sheet {
    text: String,
    /// Memory was there for all that was put.
    is_whole: bool,
}

impl Sheet {
    /// One without text.
    pub(crate) fn empty(alloc: Global) -> Sheet {
        Sheet {
            text: String::new(alloc),
            is_whole: true,
        }
    }

    /// Writes these pieces, one behind the other.
    pub(crate) fn put(&mut self, pieces: &[&str]) {
        for piece in pieces {
            if self.text.push_str(piece).is_err() {
                self.is_whole = false;
            }
        }
    }

    fn put_rows(&mut self, shape: Shape) {
        for row in 0..6 {
            if shape.has(row) {
                self.put(&[" ", shape.row_type(row as u64), " ", ROWS[row], "\n"]);
            }
        }
    }

    fn put_column(&mut self, shape: Shape, column: usize) {
        let name = COLUMNS[column % 5];
        let cost = word(&COSTS, draw(shape.number, 11, column as u64));
        self.put(&[" ", name, " COST ", cost, "\n"]);
        for row in 0..6 {
            if shape.has(row) {
                let entry = shape.entry(row as u64, column as u64);
                self.put(&[" ", name, " ", ROWS[row], " ", entry, "\n"]);
            }
        }
    }

    fn put_columns(&mut self, shape: Shape) {
        for column in 0..shape.columns {
            self.put_column(shape, column);
        }
    }

    fn put_right_sides(&mut self, shape: Shape) {
        for row in 0..6 {
            if shape.has(row) {
                self.put(&[" RHS ", ROWS[row], " ", shape.right_side(row as u64), "\n"]);
            }
        }
    }

    fn put_bounds(&mut self, shape: Shape) {
        for column in 0..shape.columns {
            let at = column as u64;
            let name = COLUMNS[column % 5];
            let low = word(&LOWS, draw(shape.number, 12, at));
            let record = word(&RECORDS, draw(shape.number, 13, at));
            let high = word(&HIGHS, draw(shape.number, 14, at));
            self.put(&[" LO B ", name, " ", low, "\n"]);
            self.put(&[" ", record, " B ", name, " ", high, "\n"]);
        }
    }

    /// The text of the program of a number.
    pub(crate) fn new(alloc: Global, number: u64) -> Sheet {
        let shape = Shape::of(number);
        let mut sheet = Sheet::empty(alloc);
        let sense = if draw(number, 15, 0) % 2 == 0 {
            "MIN"
        } else {
            "MAX"
        };
        sheet.put(&["OBJSENSE ", sense, "\nROWS\n N COST\n"]);
        sheet.put_rows(shape);
        sheet.put(&["COLUMNS\n"]);
        sheet.put_columns(shape);
        sheet.put(&["RHS\n"]);
        sheet.put_right_sides(shape);
        sheet.put(&["BOUNDS\n"]);
        sheet.put_bounds(shape);
        sheet.put(&["ENDATA\n"]);
        sheet
    }

    /// The text, where memory was there for all of it.
    pub(crate) fn text(&self) -> Option<&str> {
        if self.is_whole {
            Some(self.text.as_str())
        } else {
            None
        }
    }
}
