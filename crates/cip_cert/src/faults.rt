//! Why a combination doesn't prove what it is given for.
use cip_frac::Frac;

/// Where in a combination or in a box a fault lies.
#[derive(Clone, Copy, PartialEq, Eq)]
pub enum FaultPlace {
    /// An entry of the combination, counted from 0 through its rows, its low sides and its high sides.
    Entry(usize),
    /// A column of the box.
    Column(usize),
}

/// Why a combination doesn't prove what it is given for. The variants stand in the order in which they are looked for:
/// `TooLong` first, then entry by entry, then column by column, and then what it comes to.
///
/// An entry adds its terms by rising column, the product of factor and coefficient and then the sum, and its side's
/// product last. A bound starts at the right side and adds the columns' least rests by rising column. A single bound is
/// divided by its coefficient after all columns. The first of these operations that overflows is named.
#[derive(Clone, Copy, PartialEq, Eq)]
pub enum CutFault {
    /// There are more than `MOST_MULTIPLES` entries.
    TooLong,
    /// An entry names a row that isn't there.
    UnknownRow { entry: usize },
    /// An entry names a column that isn't there.
    UnknownColumn { entry: usize },
    /// An entry names a row of the pool, and the box isn't inside its scope.
    NotInScope { entry: usize },
    /// A factor is 0, that of a low side is below 0, or that of a high side is above 0.
    WrongSign { entry: usize },
    /// The side that an entry uses, or that the rest of a column needs, is open.
    NoSide { place: FaultPlace },
    /// A product, sum, difference or quotient overflows.
    Wide { place: FaultPlace },
    /// With rounding, a coefficient isn't 0, and isn't whole or stands on a column that isn't whole.
    NotWhole { column: usize },
    /// With costs 0 the bound isn't above 0.
    NotPositive { value: Frac },
    /// The side that is implied is weaker, or none is, as the coefficient is 0 or has the other sign.
    NotImplied { implied: Option<Frac> },
}
