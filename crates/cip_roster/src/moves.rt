//! Values that are moved from one list behind another, for which there is room.
ghost use Rattle.std.specs.Prelude.{◌≡◌, ℕ, ◌+◌, ◌^◌, ◌<◌, ◌≤◌, ◌++◌, [], Option, Some, count_by, is_some, length, map, vec_len, vec_capacity};
ghost use Rattle.cip_roster.specs.Moved.{numbered, unnumbered};

use crate::slots::Slot;
use cip_plugin::{AnyPlugin, Spent};

/// What is left of a value, with its number, if it has one.
pub(crate) trait Leaves<T>: Drop {
    ghost left: { Option ℕ → Self → T };

    /// What is left of it.
    fn leave(self, id: Option<u32>) -> T
        ensures { result ≡ left id self };
}

impl Leaves<Spent> for Slot {
    ghost left = { λ id slot. record { id = id; plugin = slot.plugin } };

    fn leave(self, id: Option<u32>) -> Spent {
        Spent {
            id,
            plugin: self.plugin,
        }
    }
}

impl Leaves<Spent> for AnyPlugin {
    ghost left = { λ id plugin. record { id = id; plugin = plugin } };

    fn leave(self, id: Option<u32>) -> Spent {
        Spent { id, plugin: self }
    }
}

/// Puts values behind what stands on a shelf, in their order.
pub(crate) fn shelve<P: Drop>(plugins: &mut Vec<P>, shelf: &mut Vec<Option<P>>)
    requires room { vec_len shelf.old + length plugins.old.items ≤ vec_capacity shelf.old }
    ensures moved { shelf.new.items ≡ shelf.old.items ++ map (λ plugin. Some plugin) plugins.old.items }
    ensures none { plugins.new.items ≡ [] }
{
    for plugin in plugins.drain(..) {
        shelf.push_reserved(Some(plugin));
    }
}

/// Puts what is left of values behind a list, in their order, with their numbers from 0.
pub(crate) fn return_seated<T: Drop, S: Leaves<T>>(seated: &mut Vec<S>, spent: &mut Vec<T>)
    requires numbers { length seated.old.items < 2 ^ 32 }
    requires room { vec_len spent.old + length seated.old.items ≤ vec_capacity spent.old }
    ensures moved { spent.new.items ≡ spent.old.items ++ numbered S.left 0 seated.old.items }
    ensures none { seated.new.items ≡ [] }
    ensures length { vec_len spent.new ≡ vec_len spent.old + length seated.old.items }
    ensures capacity { vec_capacity spent.new ≡ vec_capacity spent.old }
{
    let mut id = 0;
    for seat in seated.drain(..) {
        spent.push_reserved(seat.leave(Some(id)));
        id += 1;
    }
}

/// Puts what is left of the values that stand on a shelf behind a list, in their order, without numbers.
pub(crate) fn return_shelved<T: Drop, P: Leaves<T>>(shelf: &mut Vec<Option<P>>, spent: &mut Vec<T>)
    requires room { vec_len spent.old + count_by is_some shelf.old.items ≤ vec_capacity spent.old }
    ensures moved { spent.new.items ≡ spent.old.items ++ unnumbered P.left shelf.old.items }
    ensures none { shelf.new.items ≡ [] }
{
    for held in shelf.drain(..) {
        if let Some(plugin) = held {
            spent.push_reserved(plugin.leave(None));
        }
    }
}
