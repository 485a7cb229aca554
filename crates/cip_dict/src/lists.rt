//! The lists of a dictionary that a move writes, and room for what it writes.
use crate::forms::Form;
use cip_frac::Frac;

/// What a move writes of a dictionary: the rows of the basic variables and of the cost, and the values.
#[derive(Drop)]
pub(crate) struct Lists {
    /// The row of each variable; none where it isn't basic.
    pub(crate) rows: Vec<Form>,
    /// The row of the cost.
    pub(crate) costs: Form,
    /// The value of each variable.
    pub(crate) values: Vec<Frac>,
    /// The cost.
    pub(crate) cost: Frac,
}

/// The fractions of a line, once they are asked for.
#[derive(Drop)]
pub(crate) struct Spelled {
    pub(crate) entries: Vec<(u32, Frac)>,
    /// Whether these are the entries of the line.
    pub(crate) is_done: bool,
}

/// Lists to work with as lines are written.
#[derive(Drop)]
pub(crate) struct Scratch {
    /// The fractions of the row of the variable that enters.
    pub(crate) entering: Spelled,
    /// Those of another row.
    pub(crate) row: Vec<(u32, Frac)>,
    /// Sums of whole numbers.
    pub(crate) sums: Vec<(u32, i128)>,
    /// How many entries all lines and the room for them may hold, and at most `usize::MAX`.
    pub(crate) held: usize,
}

/// Room for the lists that a move writes, and for the row of the variable that enters.
#[derive(Drop)]
pub(crate) struct Room {
    pub(crate) entering: Form,
    pub(crate) scratch: Scratch,
    pub(crate) rows: Vec<Form>,
    /// Of each variable, whether its row was written last.
    pub(crate) changed: Vec<bool>,
    pub(crate) costs: Form,
    pub(crate) values: Vec<Frac>,
}
