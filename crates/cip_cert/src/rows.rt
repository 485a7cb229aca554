//! The rows that combinations name.
use cip_lin::{Bounds, Row};

/// A row of the pool: it may be used in boxes inside its scope.
#[derive(Drop)]
pub struct PoolRow {
    /// Its id.
    pub id: u64,
    /// The row.
    pub row: Row,
    /// The box in which it is valid.
    pub scope: Bounds,
    /// Whether it rests on the cutoff row: then it is valid only below the cost that was held when it was derived.
    pub rests: bool,
}

/// What names of rows mean, lent for a check.
#[derive(Clone, Copy, Drop)]
pub struct Rows<'a> {
    /// The program's rows, by number.
    pub own: &'a [Row],
    /// The rows of the pool, by rising id.
    pub pool: &'a [PoolRow],
    /// The cutoff row, where a cost is held.
    pub cutoff: &'a Option<Row>,
    /// Whether each column is whole.
    pub whole: &'a [bool],
}
