//! Where a token stands in its statement.
use crate::{Amount, Limit, Relation};

/// Where a token stands in its statement.
#[derive(Clone, Copy, PartialEq, Eq)]
pub(crate) enum Stage {
    /// A statement may begin.
    Start,
    /// Its name was read.
    Labelled,
    /// It began with a name, of itself or of a column.
    FirstName,
    /// A row begins with a sign.
    FirstSign,
    /// A row begins with a number.
    FirstNumber,
    /// Behind a value and a relation.
    SecondStart,
    /// Behind a value, a relation and a sign.
    SecondSign,
    /// Behind a value, a relation and a number.
    SecondNumber,
    /// Behind the number 0, a relation, a number and a name.
    SecondName,
    /// In a form, behind a term.
    AfterTerm,
    /// In a form, behind a sign.
    TermSign,
    /// In a form, behind a number.
    TermNumber,
    /// Behind the form and its relation.
    LastDue,
    /// Behind the form, its relation and a sign.
    LastSign,
    /// In Bounds, behind a name.
    BoundName,
    /// Behind that, and a relation.
    BoundDue,
    /// Behind these, and a sign.
    BoundSign,
    /// In Bounds, behind a sign.
    LimitSign,
    /// In Bounds, behind a value.
    LimitRead,
    /// Behind that, and a relation.
    LimitDue,
    /// Behind these, and a name.
    BoundedName,
}

/// What is kept of the statement in hand.
#[derive(Drop)]
pub(crate) struct Place {
    /// Where the next token stands.
    pub(crate) stage: Stage,
    /// The name that was read last.
    pub(crate) name: Vec<u8>,
    /// The sign that was read last is `-`.
    pub(crate) minus: bool,
    /// The number that was read last.
    pub(crate) amount: Amount,
    /// A form stands behind a value and a relation.
    pub(crate) given: bool,
    /// The value in front of the form, or a number that may be one.
    pub(crate) first: Amount,
    /// The relation behind that.
    pub(crate) first_relation: Relation,
    /// The relation that was read last.
    pub(crate) relation: Relation,
    /// The value of a bound that was read last.
    pub(crate) limit: Limit,
}
