//! Split cuts, and why one doesn't prove its row.
use crate::faults::CutFault;
use cip_frac::Frac;
use cip_lin::Combo;

/// A column of a split's form with its coefficient.
#[derive(Clone, Copy, PartialEq, Eq)]
pub struct FormTerm {
    /// The number of the column, from 0.
    pub col: u32,
    /// The coefficient.
    pub coef: i128,
}

/// A split cut: at points whose whole columns are whole the form is at most `k` or at least `k + 1`. On the left of
/// that the left combination and `left_factor` times the form being at most `k` add up to a row, on the right the
/// right combination and `right_factor` times the form being at least `k + 1`. Nothing is checked here: what it proves
/// is for `split_row` to say.
#[derive(Drop)]
pub struct SplitCut {
    /// Whole columns by rising number, each with a coefficient that isn't 0.
    pub form: Vec<FormTerm>,
    /// The most that the form comes to on the left.
    pub k: i128,
    /// The rows and bounds that are added up on the left.
    pub left: Combo,
    /// The factor of the form on the left, at least 0.
    pub left_factor: Frac,
    /// Those on the right.
    pub right: Combo,
    /// The factor of the form on the right, at least 0.
    pub right_factor: Frac,
}

/// A side of a split.
#[derive(Clone, Copy, PartialEq, Eq)]
pub enum SplitSide {
    /// Where the form is at most `k`.
    Left,
    /// Where it is at least `k + 1`.
    Right,
}

/// Why a split cut doesn't prove a row. The variants stand in the order in which they are looked for, but that a
/// side's combination comes before what is too wide in adding the form to it: so the range of `k + 1` is looked at
/// first, then the left combination, the sums of the left row, the right combination and the sums of the right row.
#[derive(Clone, Copy, PartialEq, Eq)]
pub enum SplitFormFault {
    /// At this place of the form, from 0, the column doesn't rise, or the coefficient is 0.
    FormOrder { at: usize },
    /// A column of the form isn't there.
    UnknownColumn { column: usize },
    /// A column of the form isn't whole.
    NotWhole { column: usize },
    /// The factor of a side is below 0.
    Negative { side: SplitSide },
    /// The number `k + 1`, a whole number of the form or a product or a sum with it is out of range.
    FormWide,
    /// Why the left combination doesn't add up to a row.
    Left(CutFault),
    /// Why the right one doesn't.
    Right(CutFault),
    /// The first column at which the left and the right row have two coefficients.
    Differs { column: usize },
}
