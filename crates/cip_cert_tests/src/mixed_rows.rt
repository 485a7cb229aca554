//! Split cuts of mixed rows that look random: mixed-integer rounding by hand arithmetic is accepted, and with each of
//! its entries changed by one it is refused or says less.
use crate::asked::Asked;
use crate::draws::{Draws, fraction};
use crate::splits::{SplitRoom, no_cut};
use cip_cert::{FormTerm, SplitCut, SplitFormFault};
use cip_frac::Frac;
use cip_lin::{ColumnMultiple, Row, RowId, RowMultiple, Sides, Term};
use std::alloc::{AllocError, Global};

/// The number of columns.
const COLUMNS: usize = 5;

/// A row over columns of at least 0, some of them whole: the sum of its products is at least a number.
#[derive(Clone, Copy)]
struct Mixed {
    whole: [bool; COLUMNS],
    coefficients: [Frac; COLUMNS],
    least: Frac,
}

impl Mixed {
    /// What the right side exceeds the next whole number below it by.
    fn part(&self) -> Frac {
        part_of(self.least)
    }

    /// The right side of the rounded row: its part times the next whole number above it.
    fn rounded_least(&self) -> Frac {
        product(self.part(), self.least.rounded_up())
    }
}

/// Which entry of a cut is changed.
#[derive(Clone, Copy)]
enum Entry {
    Form(usize),
    Number,
    LeftFactor,
    RightFactor,
    Row,
    LeftLow(usize),
    RightLow(usize),
}

/// How many changes came to what.
#[derive(Clone, Copy)]
struct Counts {
    differs: u32,
    other_faults: u32,
    says_less: u32,
}

/// A sum, or 0 where it overflows.
fn sum(a: Frac, b: Frac) -> Frac {
    match a.add(b) {
        Ok(value) => value,
        Err(_) => Frac::zero(),
    }
}

/// A product, or 0 where it overflows.
fn product(a: Frac, b: Frac) -> Frac {
    match a.mul(b) {
        Ok(value) => value,
        Err(_) => Frac::zero(),
    }
}

/// What a number exceeds the next whole number below it by.
fn part_of(number: Frac) -> Frac {
    sum(number, number.rounded_down().neg())
}

/// The lesser of two numbers.
fn lesser(a: Frac, b: Frac) -> Frac {
    if a <= b { a } else { b }
}

/// A number from -12 to 12 over one from 1 to 5.
fn drawn_number(draws: &mut Draws) -> Frac {
    let over = i128::from(draws.below(25)) - 12;
    let under = i128::from(draws.below(5)) + 1;
    fraction(over, under)
}

/// A row.
fn drawn_row(draws: &mut Draws) -> Mixed {
    let mut row = Mixed {
        whole: [false; COLUMNS],
        coefficients: [Frac::zero(); COLUMNS],
        least: drawn_number(draws),
    };
    for at in 0..COLUMNS {
        row.whole[at] = !draws.once_in(3);
        row.coefficients[at] = drawn_number(draws);
    }
    row
}

/// The coefficient of the rounded row: of a whole column the part of it below the right side's, and that of the right
/// side times what is whole; of another column what it is above 0.
fn rounded(whole: bool, coefficient: Frac, part: Frac) -> Frac {
    if whole {
        let below = lesser(part_of(coefficient), part);
        sum(product(coefficient.rounded_down(), part), below)
    } else if coefficient.is_positive() {
        coefficient
    } else {
        Frac::zero()
    }
}

/// Puts a number into a form, unless it is 0.
fn put_form(col: u32, coef: i128, form: &mut Vec<FormTerm>) -> Result<(), AllocError> {
    if coef != 0 {
        form.push(FormTerm { col, coef })?;
    }
    Ok(())
}

/// Puts a factor into low sides, unless it is 0.
fn put_low(col: u32, factor: Frac, lows: &mut Vec<ColumnMultiple>) -> Result<(), AllocError> {
    if !factor.is_zero() {
        lows.push(ColumnMultiple { col, factor })?;
    }
    Ok(())
}

/// Puts a whole column into a cut: into the form, rounded down where its part is at most the right side's, and up
/// elsewhere; and into the side on which that leaves something.
fn put_whole(
    col: u32,
    coefficient: Frac,
    part: Frac,
    cut: &mut SplitCut,
) -> Result<(), AllocError> {
    let own = part_of(coefficient);
    if own <= part {
        put_form(col, coefficient.floor(), &mut cut.form)?;
        put_low(col, own, &mut cut.right.lows)
    } else {
        put_form(col, coefficient.ceil(), &mut cut.form)?;
        put_low(col, sum(Frac::one(), own.neg()), &mut cut.left.lows)
    }
}

/// Puts a column that isn't whole into the side on which it is left.
fn put_other(col: u32, coefficient: Frac, cut: &mut SplitCut) -> Result<(), AllocError> {
    if coefficient.is_negative() {
        put_low(col, coefficient.neg(), &mut cut.left.lows)
    } else {
        put_low(col, coefficient, &mut cut.right.lows)
    }
}

/// Puts all columns and the row into a cut of nothing.
fn fill_cut(mixed: &Mixed, cut: &mut SplitCut) -> Result<(), AllocError> {
    let part = mixed.part();
    for at in 0..COLUMNS {
        if mixed.whole[at] {
            put_whole(at as u32, mixed.coefficients[at], part, cut)?;
        } else {
            put_other(at as u32, mixed.coefficients[at], cut)?;
        }
    }
    cut.left.rows.push(RowMultiple {
        row: RowId::Own(0),
        factor: Frac::one(),
    })?;
    Ok(())
}

/// Appends the terms of a row.
fn is_row_filled(mixed: &Mixed, row: &mut Row) -> bool {
    for at in 0..COLUMNS {
        let coef = mixed.coefficients[at];
        let col = at as u32;
        if !coef.is_zero() && row.append(Term { col, coef }).is_err() {
            return false;
        }
    }
    true
}

/// Puts the columns in, where nothing is yet.
fn put_columns(mixed: &Mixed, asked: &mut Asked) -> Result<(), AllocError> {
    for at in 0..COLUMNS {
        asked.bounds.push(Sides {
            low: Some(Frac::zero()),
            high: None,
        })?;
        asked.whole.push(mixed.whole[at])?;
    }
    Ok(())
}

/// Fills the last of these rows.
fn is_last_filled(mixed: &Mixed, rows: &mut [Row]) -> bool {
    match rows.last_mut() {
        Some(row) => is_row_filled(mixed, row),
        None => false,
    }
}

/// Puts the columns and the row in, where nothing is yet.
fn is_asked_filled(alloc: Global, mixed: &Mixed, asked: &mut Asked) -> bool {
    put_columns(mixed, asked).is_ok()
        && asked
            .own
            .push(Row::empty(alloc, Some(mixed.least), None))
            .is_ok()
        && is_last_filled(mixed, asked.own.as_mut_slice())
}

/// The coefficients in the first scratch are those of the rounded row.
fn are_rounded(mixed: &Mixed, room: &SplitRoom) -> bool {
    let part = mixed.part();
    let entries = room.first.row.entries();
    if entries.len() != COLUMNS {
        return false;
    }
    for at in 0..COLUMNS {
        if entries[at] != rounded(mixed.whole[at], mixed.coefficients[at], part) {
            return false;
        }
    }
    true
}

/// Adds to the factor at a place of a list.
fn add_at(list: &mut Vec<ColumnMultiple>, at: usize, by: Frac) {
    if at < list.len() {
        list[at].factor = sum(list[at].factor, by);
    }
}

/// Makes an entry of a cut one more, or one less.
fn change(cut: &mut SplitCut, entry: Entry, is_more: bool) {
    let by = if is_more { 1 } else { -1 };
    let number = Frac::from(by);
    match entry {
        Entry::Form(at) => {
            if at < cut.form.len() {
                cut.form[at].coef = cut.form[at].coef.wrapping_add(i128::from(by));
            }
        }
        Entry::Number => cut.k = cut.k.wrapping_add(i128::from(by)),
        Entry::LeftFactor => cut.left_factor = sum(cut.left_factor, number),
        Entry::RightFactor => cut.right_factor = sum(cut.right_factor, number),
        Entry::Row => {
            if cut.left.rows.len() > 0 {
                cut.left.rows[0].factor = sum(cut.left.rows[0].factor, number);
            }
        }
        Entry::LeftLow(at) => add_at(&mut cut.left.lows, at, number),
        Entry::RightLow(at) => add_at(&mut cut.right.lows, at, number),
    }
}

/// A changed cut is refused by a rule, or its row has the same coefficients and says no more; it is counted by that.
fn is_no_stronger(
    mixed: &Mixed,
    answer: Option<Result<Frac, SplitFormFault>>,
    room: &SplitRoom,
    counts: &mut Counts,
) -> bool {
    match answer {
        Some(Ok(value)) => {
            counts.says_less = counts.says_less.saturating_add(1);
            value <= mixed.rounded_least() && are_rounded(mixed, room)
        }
        Some(Err(SplitFormFault::Differs { .. })) => {
            counts.differs = counts.differs.saturating_add(1);
            true
        }
        Some(Err(SplitFormFault::FormWide)) => false,
        Some(Err(_)) => {
            counts.other_faults = counts.other_faults.saturating_add(1);
            true
        }
        None => false,
    }
}

/// Changes an entry, asks, and changes it back.
fn is_changed_so(
    asked: &Asked,
    mixed: &Mixed,
    entry: Entry,
    cut: &mut SplitCut,
    room: &mut SplitRoom,
    counts: &mut Counts,
) -> bool {
    change(cut, entry, true);
    let more = asked.split(cut, room);
    let is_more_right = is_no_stronger(mixed, more, room, counts);
    change(cut, entry, false);
    change(cut, entry, false);
    let less = asked.split(cut, room);
    let is_less_right = is_no_stronger(mixed, less, room, counts);
    change(cut, entry, true);
    is_more_right && is_less_right
}

/// Changes each entry of the form.
fn is_form_changed_so(
    asked: &Asked,
    mixed: &Mixed,
    cut: &mut SplitCut,
    room: &mut SplitRoom,
    counts: &mut Counts,
) -> bool {
    for at in 0..cut.form.len() {
        if !is_changed_so(asked, mixed, Entry::Form(at), cut, room, counts) {
            return false;
        }
    }
    true
}

/// Changes the factor of each low side on the left.
fn are_lefts_changed_so(
    asked: &Asked,
    mixed: &Mixed,
    cut: &mut SplitCut,
    room: &mut SplitRoom,
    counts: &mut Counts,
) -> bool {
    for at in 0..cut.left.lows.len() {
        if !is_changed_so(asked, mixed, Entry::LeftLow(at), cut, room, counts) {
            return false;
        }
    }
    true
}

/// Changes the factor of each low side on the right.
fn are_rights_changed_so(
    asked: &Asked,
    mixed: &Mixed,
    cut: &mut SplitCut,
    room: &mut SplitRoom,
    counts: &mut Counts,
) -> bool {
    for at in 0..cut.right.lows.len() {
        if !is_changed_so(asked, mixed, Entry::RightLow(at), cut, room, counts) {
            return false;
        }
    }
    true
}

/// Changes the number, the factors of the form and that of the row.
fn are_factors_changed_so(
    asked: &Asked,
    mixed: &Mixed,
    cut: &mut SplitCut,
    room: &mut SplitRoom,
    counts: &mut Counts,
) -> bool {
    let entries = [
        Entry::Number,
        Entry::LeftFactor,
        Entry::RightFactor,
        Entry::Row,
    ];
    for entry in entries {
        if !is_changed_so(asked, mixed, entry, cut, room, counts) {
            return false;
        }
    }
    true
}

/// The rounded row is accepted, and each change of one entry is refused or says no more.
fn is_answered(
    asked: &Asked,
    mixed: &Mixed,
    cut: &mut SplitCut,
    room: &mut SplitRoom,
    counts: &mut Counts,
) -> bool {
    asked.split(cut, room) == Some(Ok(mixed.rounded_least()))
        && are_rounded(mixed, room)
        && is_form_changed_so(asked, mixed, cut, room, counts)
        && are_lefts_changed_so(asked, mixed, cut, room, counts)
        && are_rights_changed_so(asked, mixed, cut, room, counts)
        && are_factors_changed_so(asked, mixed, cut, room, counts)
}

/// Makes the cut of a row of a cut of nothing, and asks.
fn is_filled_so(
    asked: &Asked,
    mixed: &Mixed,
    cut: &mut SplitCut,
    room: &mut SplitRoom,
    counts: &mut Counts,
) -> bool {
    fill_cut(mixed, cut).is_ok() && is_answered(asked, mixed, cut, room, counts)
}

/// Makes the cut of a row, and asks.
fn is_cut_so(
    alloc: Global,
    asked: &Asked,
    mixed: &Mixed,
    room: &mut SplitRoom,
    counts: &mut Counts,
) -> bool {
    let part = mixed.part();
    let left_factor = sum(Frac::one(), part.neg());
    let mut cut = no_cut(alloc, mixed.least.floor(), left_factor, part);
    let is_so = is_filled_so(asked, mixed, &mut cut, room, counts);
    drop(cut);
    is_so
}

/// Puts the row in, and tries its cut.
fn is_row_so(
    alloc: Global,
    mixed: &Mixed,
    asked: &mut Asked,
    room: &mut SplitRoom,
    counts: &mut Counts,
) -> bool {
    is_asked_filled(alloc, mixed, asked) && is_cut_so(alloc, asked, mixed, room, counts)
}

/// Draws a row, and tries its cut.
fn agrees(alloc: Global, draws: &mut Draws, room: &mut SplitRoom, counts: &mut Counts) -> bool {
    let mixed = drawn_row(draws);
    match Asked::new(alloc, COLUMNS) {
        Ok(mut asked) => {
            let is_so = is_row_so(alloc, &mixed, &mut asked, room, counts);
            drop(asked);
            is_so
        }
        Err(_) => false,
    }
}

/// The first of a thousand rows whose cuts aren't answered so, or a thousand.
fn first_wrong(alloc: Global, room: &mut SplitRoom, counts: &mut Counts) -> usize {
    let mut draws = Draws::new(1);
    for number in 0..1000 {
        if !agrees(alloc, &mut draws, room, counts) {
            return number;
        }
    }
    1000
}

/// All rows are answered so, and changes come to each of the three things often.
fn are_all_so(alloc: Global, room: &mut SplitRoom) -> bool {
    let mut counts = Counts {
        differs: 0,
        other_faults: 0,
        says_less: 0,
    };
    first_wrong(alloc, room, &mut counts) == 1000
        && counts.differs >= 1000
        && counts.other_faults >= 1000
        && counts.says_less >= 1000
}

/// The same, in a room for their columns.
fn are_all_so_in_room(alloc: Global) -> bool {
    match SplitRoom::new(alloc, COLUMNS) {
        Some(mut room) => {
            let is_so = are_all_so(alloc, &mut room);
            drop(room);
            is_so
        }
        None => false,
    }
}

#[test]
fn mixed_rounding_is_a_split_cut(rt: HostRuntime) {
    assert!(rt; are_all_so_in_room(rt.alloc()));
}
