//! A box with choices that is changed column by column, and put back to what it was at a mark.
#![tactic(auto)]

ghost use Rattle.cip_domain.specs.Narrowing.{ChangesAreMet, OrderIsFree};

mod changes;
mod halves;
mod regions;
mod stores;

pub use changes::Change;
pub use cip_lin::{Bounds, Choice, Choices, Frac, Side, Sides};
pub use halves::{can_halve, choice_change, high_change, low_change};
pub use regions::Region;
pub use stores::{Checkpoint, DomainStore, Tightened};

/// A point lies in a box after changes exactly where it lies in the box and each change allows it.
pub fn changes_are_met()
    ensures { ChangesAreMet }
{}

/// Changes give the same region in whatever order they are made: each side is the strongest that they name.
pub fn order_is_free()
    ensures { OrderIsFree }
{}
