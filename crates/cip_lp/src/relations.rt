//! Relations, and the sides that they say of rows and bounds.
ghost use Rattle.std.specs.Prelude.{◌≡◌};
ghost use Rattle.cip_text_rules.specs.LpPlaces as places;
ghost use Rattle.cip_text_rules.specs.LpGrammar as grammar;
ghost use Rattle.cip_lp.specs.LpKinds.{relation_shown};
ghost use Rattle.cip_lp.specs.LpLimits.{limit_shown};

use crate::Relation;
use crate::numbers::Limit;
use cip_frac::Frac;

/// Whether a relation is `=`.
pub fn is_equality(relation: Relation) -> bool
    ensures { result ≡ places.is_equality (relation_shown relation) }
{
    relation == Relation::EqualTo
}

/// Whether two relations point the same way, and none is `=`.
pub fn agree(first: Relation, second: Relation) -> bool
    ensures { result ≡ places.agree (relation_shown first) (relation_shown second) }
{
    match (first, second) {
        (Relation::AtMost, Relation::AtMost) => true,
        (Relation::AtLeast, Relation::AtLeast) => true,
        _ => false,
    }
}

/// A relation read from its other end.
pub fn flipped(relation: Relation) -> Relation
    ensures { relation_shown result ≡ places.flipped (relation_shown relation) }
{
    match relation {
        Relation::AtMost => Relation::AtLeast,
        Relation::EqualTo => Relation::EqualTo,
        Relation::AtLeast => Relation::AtMost,
    }
}

/// The low side of a form with this relation to a value.
pub fn low_side(relation: Relation, value: Frac) -> Option<Frac>
    ensures { result ≡ grammar.low_side (relation_shown relation) value }
{
    match relation {
        Relation::AtMost => None,
        _ => Some(value),
    }
}

/// The high side of a form with this relation to a value.
pub fn high_side(relation: Relation, value: Frac) -> Option<Frac>
    ensures { result ≡ grammar.high_side (relation_shown relation) value }
{
    match relation {
        Relation::AtLeast => None,
        _ => Some(value),
    }
}

/// Whether a value isn't a bound on the side that a relation in front of it says.
pub fn is_wrong(relation: Relation, limit: &Limit) -> bool
    ensures { result ≡ grammar.is_wrong (relation_shown relation) (limit_shown limit.now) }
{
    match (limit.value, relation) {
        (Some(_), _) => false,
        (None, Relation::AtMost) => limit.minus,
        (None, Relation::EqualTo) => true,
        (None, Relation::AtLeast) => !limit.minus,
    }
}
